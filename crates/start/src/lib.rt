// The start of a block, and where its two copies lie.
//
//   16 short pulses | copy one                                     | one L and 60 S | copy two              |
//                   p: $89 .. $81, n payload bytes, the checksum                      as long                end
#![tactic(auto)]

ghost use Rattle.std.specs.Prelude.{◌+◌, ◌-◌, ◌≤◌, ◌≡◌, ltb, length};
ghost use Rattle.refusal.specs.Outcome.{outcome_of};
ghost use Rattle.std.specs.Option.{is_some};
ghost use Rattle.lists.specs.Places.{first_from};
ghost use Rattle.pulse.specs.Pulse.{classes};
ghost use Rattle.start.specs.Start.{find_start, start_at};
ghost use Rattle.start.specs.Copies.{end_of, locate_copies};
ghost use Rattle.start.specs.private.Search.{not_short, last_from};

use pulse::{Cycles, Thresholds};
use refusal::{Reason, Refusal};

// The short pulses that a start has just before it.
pub const SYNC_SHORTS: usize = 16;

// The first countdown byte of copy one, which a start has from there on, and that of copy two.
pub const FIRST_OF_ONE: u8 = 0x89;

pub const FIRST_OF_TWO: u8 = 0x09;

// The bytes of a copy beside the payload: nine of countdown and the checksum.
pub const COUNTDOWN_BYTES: usize = 9;

// So a copy of n payload bytes has BYTE_PULSES * (n + EXTRA_BYTES) pulses. It is written out where it is needed: a public function for it takes any
// n, and would have to refuse one whose pulses are too many.
pub const EXTRA_BYTES: usize = COUNTDOWN_BYTES + 1;

// The pulses of a trailer, which follows each copy: a long one and short ones.
pub const TRAILER_SHORTS: usize = 60;

pub const TRAILER_PULSES: usize = 1 + TRAILER_SHORTS;

// The pulses of two copies without payload and of the trailer between them.
const LEAST_PULSES: usize = 2 * byte::BYTE_PULSES * EXTRA_BYTES + TRAILER_PULSES;

// How many short pulses are passed at a time: more are no faster, and cost more where a run ends.
const PASSED_SHORTS: usize = 8;

// Where the copies of a block begin, and the place after copy two.
#[derive(Clone, Copy)]
pub struct Copies {
    pub one: usize,
    pub two: usize,
    pub end: usize,
}

// Rule 2: where the copies of n payload bytes lie, on a strip of that many pulses. It refuses a strip that ends before copy two does.
pub fn locate_copies(count: usize, start: usize, n: usize) -> Result<Copies, Refusal>
    ensures { outcome_of result ≡ locate_copies count start n }
{
    if is_cut_short(count, start, n) {
        return Err(Refusal::at(Reason::CutShort, start));
    }
    let copy = byte::BYTE_PULSES * (n + EXTRA_BYTES);
    let two = start + copy + TRAILER_PULSES;
    Ok(Copies {
        one: start,
        two,
        end: two + copy,
    })
}

// Whether the strip ends before copy two does. No sum here can be too large.
fn is_cut_short(count: usize, start: usize, n: usize) -> bool
    ensures { result ≡ ltb count (end_of start n) }
{
    if count < start {
        return true;
    }
    let rest = count - start;
    if rest < LEAST_PULSES {
        return true;
    }
    (rest - LEAST_PULSES) / (2 * byte::BYTE_PULSES) < n
}

// The last of the sixteen pulses from a place on that is not short.
fn last_not_short(t: Thresholds, strip: &[u32], at: usize) -> Option<usize>
    requires { at + 16 ≤ length strip.now }
    ensures { result ≡ last_from (not_short (classes t strip.now)) 16 at }
{
    // With `rposition` the proof did not close; by `rev` and `position` the place would have to be counted back from the end.
    for i in (0..SYNC_SHORTS).rev() {
        if !pulse::is_short(t, Cycles(strip[at + i])) {
            return Some(at + i);
        }
    }
    None
}

// Whether a pulse of a part is not short. It runs without a branch on a pulse, so that the compiler takes several at once.
fn has_other(t: Thresholds, pulses: &[u32]) -> bool
    ensures { result ≡ is_some (first_from (not_short (classes t pulses.now)) (length pulses.now) 0) }
{
    let mut other = false;
    for pulse in pulses {
        other |= !pulse::is_short(t, Cycles(*pulse));
    }
    other
}

// A place from which the first pulse that is not short is that from `at` on: a leader is long, so eight are passed at a time.
fn past_shorts(t: Thresholds, strip: &[u32], at: usize) -> usize
    ensures { first_from (not_short (classes t strip.now)) (length strip.now - result) result ≡ first_from (not_short (classes t strip.now)) (length strip.now - at) at }
{
    let mut i = at;
    // A while, since a turn passes eight.
    while PASSED_SHORTS <= strip.len().saturating_sub(i) {
        if has_other(t, &strip[i..i + PASSED_SHORTS]) {
            return i;
        }
        i += PASSED_SHORTS;
    }
    i
}

// The first pulse from a place on that is not short.
fn first_not_short(t: Thresholds, strip: &[u32], at: usize) -> Option<usize>
    ensures { result ≡ first_from (not_short (classes t strip.now)) (length strip.now - at) at }
{
    let from = past_shorts(t, strip, at);
    let rest = strip.get(from..)?;
    let first = rest
        .iter()
        .position(|pulse| !pulse::is_short(t, Cycles(*pulse)))?;
    Some(from + first)
}

// Rule 1. The search looks at the sixteen pulses from `at` on, the last one first. A pulse that is not short rules out the sixteen places
// after it, so the search goes on just after it. Where all sixteen are short, only the end of their run can be a start: no byte begins with
// a short pulse. The look there goes over the pairs of $89 and ends at the first that does not fit.
pub fn find_start(t: Thresholds, strip: &[u32], from: usize) -> Option<usize>
    ensures { start_at result ≡ find_start (classes t strip.now) from }
{
    let mut at = from;
    'search: loop {
        'runs: loop {
            if strip.len().saturating_sub(at) < SYNC_SHORTS {
                break 'search None;
            }
            let Some(last) = last_not_short(t, strip, at) else {
                break 'runs;
            };
            at = last + 1;
        }
        let Some(end) = first_not_short(t, strip, at + SYNC_SHORTS) else {
            break 'search None;
        };
        if strip.len().saturating_sub(end) < byte::BYTE_PULSES {
            break 'search None;
        }
        // Document 01 names the form of this look: it leaves by a label.
        'look: {
            for i in 0..byte::PAIRS {
                let j = end + byte::PAIR_PULSES * i;
                if !byte::pair_fits(t, FIRST_OF_ONE, i, Cycles(strip[j]), Cycles(strip[j + 1])) {
                    break 'look;
                }
            }
            break 'search Some(end);
        }
        at = end + 1;
    }
}
