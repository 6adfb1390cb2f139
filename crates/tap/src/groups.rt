// Groups of data bytes or of durations, by which the reader and the writer go for speed: where each of a group has the one-byte form, no
// branch is needed for it. To count forms, none is needed either where no zero byte stands in the three bytes after another.
ghost use Rattle.std.specs.Prelude.{◌+◌, ◌≤◌, ◌<◌, ◌≡◌, length, map, IfSome};
ghost use Rattle.std.proofs.lemmas.List.Edits.{sets};
ghost use Rattle.tap.specs.private.Forms.{no_zeros};
ghost use Rattle.tap.specs.private.Reader.{Apart};

// How many are tried together: no more than a byte counts.
pub const GROUP: usize = 128;

// Where the group ends that begins at a place below n.
pub fn group_end(start: usize, n: usize) -> usize
    requires { start < n }
    ensures { (start < result) × (result ≤ n) × (result ≤ start + 128) × (result < n → result ≡ start + 128) }
{
    start + GROUP.min(n - start)
}

// The loop takes each byte, where `all` ends at the first 0: so the compiler can take many at once. By a fold `tape_read_tap` takes 136 bytes of
// stack, and the interface for C states 128.
pub fn no_zeros(bytes: &[u8]) -> bool
    ensures { result ≡ no_zeros bytes.now }
{
    let mut none = true;
    for b in bytes {
        none &= *b != 0;
    }
    none
}

// How many zero bytes a group has, where none stands in the three bytes after another. By `windows` of four the loop would be as long, and have
// four indices too.
pub fn zeros_in(bytes: &[u8], start: usize, end: usize) -> Option<u8>
    requires { (start ≤ end) × (end ≤ start + 128) × (end + 4 ≤ length bytes.now) }
    ensures { IfSome result (λ zeros. Apart bytes.now start end zeros) }
{
    let mut count: u8 = 0;
    let mut apart = true;
    for i in start..end {
        let clear = (bytes[i + 1] != 0) & (bytes[i + 2] != 0) & (bytes[i + 3] != 0);
        apart &= (bytes[i] != 0) | clear;
        count += u8::from(bytes[i] == 0);
    }
    apart.then_some(count)
}

// Puts what a function makes of each element, from a place on. By `iter_mut` and `zip` the proof did not close: an invariant of that loop has no
// name for the values put.
pub fn put_mapped<T: Copy, U: Copy, F: Fn(T) -> U>(xs: &[T], out: &mut [U], at: usize, f: F)
    requires room { at + length xs.now ≤ length out.old }
    requires calls { F.IsAlwaysCallable f }
    ensures { (g : T → U) → ((x : T) (y : U) → F.post f x y → y ≡ g x) → out.new ≡ sets out.old at (map g xs.now) }
{
    for (i, x) in xs.iter().enumerate() {
        out[at + i] = f(*x);
    }
}
