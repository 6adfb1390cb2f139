// Definitions and laws on lists and numbers that every layer uses (specs/, proofs/), and numbers as bytes, low first.
#![tactic(auto)]

ghost use Rattle.std.specs.Prelude.{◌≡◌, take, get_or};
ghost use Rattle.lists.specs.Text.{low_first, from_low};

// Byte i of a number, the lowest first. There are four; past them it is 0.
pub fn low_byte(n: u32, i: usize) -> u8
    ensures { result ≡ get_or (low_first 4 n) i 0 }
{
    byte_or_zero(&n.to_le_bytes(), i)
}

// The number that bytes make, the lowest first. Bytes after the fourth do not count. There may be fewer; then those that are missing are 0.
pub fn from_low(bytes: &[u8]) -> u32
    ensures { result ≡ from_low (take 4 bytes.now) }
{
    let first = byte_or_zero(bytes, 0);
    let second = byte_or_zero(bytes, 1);
    u32::from_le_bytes([
        first,
        second,
        byte_or_zero(bytes, 2),
        byte_or_zero(bytes, 3),
    ])
}

// Byte i, 0 past the end.
fn byte_or_zero(bytes: &[u8], i: usize) -> u8
    ensures { result ≡ get_or bytes.now i 0 }
{
    bytes.get(i).copied().unwrap_or(0)
}
