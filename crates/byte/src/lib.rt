// Bytes. A byte is twenty pulses, in ten pairs: the marker, eight bits from the lowest to the highest, and a parity
// bit, which makes the number of ones among the nine bits odd.
//
//   pair      0       1     2     3     4     5     6     7     8       9
//          marker   bit 0   1     2     3     4     5     6     7    parity
//            L M    each bit: 0 is S M, 1 is M S
#![tactic(auto)]

mod decoder;
mod write;

ghost use Rattle.std.specs.Prelude.{◌≡◌, ◌<◌, length};
ghost use Rattle.refusal.specs.Promise.{Written};
ghost use Rattle.pulse.specs.Pulse.{class_of, classes};
ghost use Rattle.byte.specs.Byte.{pair_of, is_odd, parity_bit, write_bytes, wrong_pair, read_frame, first_wrong, byte_at, pair_fits};
ghost use Rattle.byte.specs.private.Frame.{code_of};

use decoder::Bounds;
use pulse::{Cycles, Thresholds};
use refusal::{Reason, Refusal};
use write::Quarters;

// What twenty pulses are: a good byte, with its value, or a bad one, with its cause. That is the first pair that is wrong, or EVEN_ONES.
// An enum of its own and no Result: the terms of the format are a good and a bad byte, and a bad one is no error of the call. The cause is the
// number of a pair, or 10, as the definitions and C have it.
#[derive(Clone, Copy)]
pub enum ByteRead {
    Good(u8),
    Bad(u8),
}

pub const PAIR_PULSES: usize = 2;

pub const PAIRS: usize = 10;

pub const BYTE_PULSES: usize = PAIR_PULSES * PAIRS;

pub const BITS: usize = 8;

// The causes of a bad byte: each of the pairs, and that the number of ones is even.
pub const CAUSES: usize = PAIRS + 1;

pub const EVEN_ONES: u8 = PAIRS as u8;

// The place values of the first bit and of the parity bit among a decoder's bits, and how many values a byte has.
const FIRST: u32 = 2;

const VALUES: u32 = 1 << BITS;

const PARITY: u32 = FIRST * VALUES;

// The byte at an index of a strip. Past its end there is only noise.
pub fn byte_at(t: Thresholds, strip: &[u32], at: usize) -> ByteRead
    ensures { result ≡ byte_at (classes t strip.now) at }
{
    if strip.len() <= at {
        return ByteRead::Bad(0);
    }
    if strip.len() - at < BYTE_PULSES {
        return ByteRead::Bad(first_wrong(t, &strip[at..]));
    }
    match lone_frame(t, &strip[at..at + BYTE_PULSES]) {
        Some(value) => ByteRead::Good(value),
        None => ByteRead::Bad(first_wrong(t, &strip[at..at + BYTE_PULSES])),
    }
}

// The value of a frame, which has twenty pulses. Fewer or more have none.
#[inline(always)]
pub fn read_frame(t: Thresholds, frame: &[u32]) -> Option<u8>
    ensures { result ≡ read_frame (classes t frame.now) }
{
    Bounds::new(t).decode(frame)
}

// The same, out of line: so a call for one byte, and a run of a deck, take less stack.
#[inline(never)]
fn lone_frame(t: Thresholds, frame: &[u32]) -> Option<u8>
    ensures { result ≡ read_frame (classes t frame.now) }
{
    read_frame(t, frame)
}

// The first wrong pair of a frame, or EVEN_ONES where none is wrong: the cause, where the frame is a bad byte.
pub fn first_wrong(t: Thresholds, frame: &[u32]) -> u8
    ensures { result ≡ first_wrong (classes t frame.now) }
{
    // With `find` it would be no plainer: the closure would have to say that i is below ten, as `is_wrong` asks.
    for i in 0..PAIRS {
        if is_wrong(t, frame, i) {
            return i as u8;
        }
    }
    EVEN_ONES
}

// Whether pair i of a frame is not what it has to be: the marker, or a bit. One that is not whole is wrong.
fn is_wrong(t: Thresholds, frame: &[u32], i: usize) -> bool
    requires { i < 10 }
    ensures { result ≡ wrong_pair (classes t frame.now) i }
{
    let at = PAIR_PULSES * i;
    if frame.len() < at + PAIR_PULSES {
        return true;
    }
    let first = Cycles(frame[at]);
    let second = Cycles(frame[at + 1]);
    if i == 0 {
        return !is_marker(t, first, second);
    }
    !(is_zero(t, first, second) | is_one(t, first, second))
}

// Whether two pulses are pair i of the byte with this value. There are ten pairs.
pub fn pair_fits(t: Thresholds, value: u8, i: usize, first: Cycles, second: Cycles) -> bool
    ensures { result ≡ pair_fits value i (class_of t first.0) (class_of t second.0) }
{
    if PAIRS <= i {
        return false;
    }
    if i == 0 {
        return is_marker(t, first, second);
    }
    if (code_of(value) >> i) % 2 == 0 {
        return is_zero(t, first, second);
    }
    is_one(t, first, second)
}

// Whether two pulses are the marker, a 0 or a 1. Inlined: as calls they make the look for a cause half as slow again.
#[inline(always)]
#[tactic(auto, unfolding(crate::specs::Byte::pair_of))]
fn is_marker(t: Thresholds, first: Cycles, second: Cycles) -> bool
    ensures { result ≡ (pair_of (class_of t first.0) (class_of t second.0)).marker }
{
    pulse::is_long(t, first) & pulse::is_medium(t, second)
}

#[inline(always)]
#[tactic(auto, unfolding(crate::specs::Byte::pair_of))]
fn is_zero(t: Thresholds, first: Cycles, second: Cycles) -> bool
    ensures { result ≡ (pair_of (class_of t first.0) (class_of t second.0)).zero }
{
    pulse::is_short(t, first) & pulse::is_medium(t, second)
}

#[inline(always)]
#[tactic(auto, unfolding(crate::specs::Byte::pair_of))]
fn is_one(t: Thresholds, first: Cycles, second: Cycles) -> bool
    ensures { result ≡ (pair_of (class_of t first.0) (class_of t second.0)).one }
{
    pulse::is_medium(t, first) & pulse::is_short(t, second)
}

// Writes bytes one after the other, twenty pulses each, and answers the number of pulses put. It refuses an output that is too short.
pub fn write_bytes(values: &[u8], out: &mut [u32]) -> Result<usize, Refusal>
    ensures { Written (write_bytes (length out.old) values.now) out.old result out.new }
{
    if out.len() / BYTE_PULSES < values.len() {
        return Err(Refusal::at(Reason::NoRoom, 0));
    }
    let table = Quarters::new();
    // The index is a place in the output, as in `write`.
    for (i, value) in values.iter().enumerate() {
        table.put_byte(out, BYTE_PULSES * i, *value);
    }
    Ok(BYTE_PULSES * values.len())
}

// The bits of a byte, each at the place of its pair: the value at 1 to 8, the parity bit at 9.
fn code_of(value: u8) -> u32
    ensures { result ≡ code_of value }
{
    FIRST * (u32::from(value) + VALUES * u32::from(parity_bit(value)))
}

fn is_odd(n: u32) -> bool
    ensures { result ≡ is_odd n }
{
    n % 2 == 1
}

// The bit that makes the number of ones odd.
fn parity_bit(b: u8) -> u8
    ensures { result ≡ parity_bit b }
{
    if is_odd(u8::count_ones(b)) { 0 } else { 1 }
}
