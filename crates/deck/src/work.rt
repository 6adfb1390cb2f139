// The two lent buffers. They are lent anew to each call, so no struct keeps them or their lengths: that there is room for a place is a clause of
// each contract, and `working` and `room`, or `work` and `out`, are passed side by side.
ghost use Rattle.std.specs.Prelude.{◌+◌, ◌*◌, ◌<◌, ◌≤◌, ◌≡◌, length};
ghost use Rattle.lists.specs.Buffer.{put_at};
ghost use Rattle.deck.specs.Work.{fits, cause_byte, put_byte, get_byte, payload_in};

use byte::ByteRead;

// Whether the buffers are long enough for n payload bytes.
pub fn has_room(n: u32, working: usize, room: usize) -> bool
    ensures { result ≡ fits n working room }
{
    let n = n as usize;
    (2 * (n + start::EXTRA_BYTES) <= working) & (n <= room)
}

// Puts a byte at its place: its value and 0, or 0 and its cause plus 1.
#[tactic(auto, unfolding(crate::specs::Work::put_byte))]
pub fn put(work: &mut [u8], place: usize, read: ByteRead)
    requires { (2 * place + 1 < length work.old) × (cause_byte read < 256) }
    ensures { work.new ≡ put_byte work.old place read }
{
    match read {
        ByteRead::Good(value) => {
            work[2 * place] = value;
            work[2 * place + 1] = 0;
        }
        ByteRead::Bad(cause) => {
            work[2 * place] = 0;
            work[2 * place + 1] = cause + 1;
        }
    }
}

// The byte that stands at a place.
pub fn get(work: &[u8], place: usize) -> ByteRead
    requires { 2 * place + 1 < length work.now }
    ensures { result ≡ get_byte work.now place }
{
    let mark = work[2 * place + 1];
    if mark == 0 {
        return ByteRead::Good(work[2 * place]);
    }
    ByteRead::Bad(mark - 1)
}

// Fills the output with the n payload bytes. By an index, since nothing is proved of what a loop over `iter_mut().zip(..)` writes.
pub fn fill(out: &mut [u8], work: &[u8], n: usize)
    requires { (2 * (n + 10) ≤ length work.now) × (n ≤ length out.old) }
    ensures { out.new ≡ put_at out.old 0 (payload_in n work.now) }
{
    for i in 0..n {
        out[i] = work[2 * (start::COUNTDOWN_BYTES + i)];
    }
}
