// How a frame is read at once, without a branch on its bits.
//
// A pulse is taken by its distance above the short threshold. A pair is a bit exactly where both pulses are nearer than long and one of them
// is nearer than medium; the bit is 1 where the first is not.
ghost use Rattle.std.specs.Prelude.{◌≡◌, map};
ghost use Rattle.byte.specs.Byte.{pair_of, read_frame};
ghost use Rattle.byte.specs.private.Frame.{bounds_of, distance_of, class_in, closed};

use super::{BYTE_PULSES, FIRST, PAIR_PULSES, PARITY, VALUES};
use pulse::{Cycles, Thresholds};

// Where the second pulses' bits begin in a word, and the place value there.
const SECOND_HALF: usize = 16;

const HALF: u32 = 1 << SECOND_HALF;

// The short threshold, and how far above it medium, long and noise begin. Long is at least medium.
#[derive(Clone, Copy)]
pub struct Bounds {
    short: Cycles,
    medium: Cycles,
    long: Cycles,
    noise: Cycles,
}

impl Bounds {
    pub fn new(t: Thresholds) -> Bounds
        ensures { result ≡ bounds_of t }
    {
        let short = t.short.0;
        let medium = t.medium.0.saturating_sub(short);
        let long = t.long.0.saturating_sub(short);
        let noise = t.noise.0.saturating_sub(short);
        Bounds {
            short: t.short,
            medium: Cycles(medium),
            long: Cycles(long.max(medium)),
            noise: Cycles(noise),
        }
    }

    // The value of a frame. Bit i of the word says that pair i's first pulse is not nearer than medium, and bit 16 + i that its second is not.
    // Inlined at every call, so that the loop is unrolled for twenty pulses, and before a loop over frames the bounds are made once.
    #[inline(always)]
    pub fn decode(self, frame: &[u32]) -> Option<u8>
        ensures { result ≡ read_frame (map (class_in self) frame.now) }
    {
        if frame.len() < PAIR_PULSES {
            return None;
        }
        if BYTE_PULSES < frame.len() {
            return None;
        }
        let marked = self.is_marker(Cycles(frame[0]), Cycles(frame[1]));
        let mut word: u32 = 0;
        let mut out = false;
        // The index is the place of the pulse's bit too.
        for i in PAIR_PULSES..frame.len() {
            let far = self.distance(Cycles(frame[i]));
            out |= self.long <= far;
            word |= u32::from(self.medium <= far)
                << (i / PAIR_PULSES + i % PAIR_PULSES * SECOND_HALF);
        }
        close(word, marked & !out & (frame.len() == BYTE_PULSES))
    }

    // How far a pulse is above the short threshold. One below it comes out beyond all bounds.
    fn distance(self, pulse: Cycles) -> Cycles
        ensures { result.0 ≡ distance_of self pulse.0 }
    {
        Cycles(pulse.0.wrapping_sub(self.short.0))
    }

    // As `super::is_marker`, by the distances, which are there already.
    fn is_marker(self, first: Cycles, second: Cycles) -> bool
        ensures { result ≡ (pair_of (class_in self first.0) (class_in self second.0)).marker }
    {
        let long = self.distance(first);
        let medium = self.distance(second);
        (self.long <= long) & (long < self.noise) & (self.medium <= medium) & (medium < self.long)
    }
}

// The value, by the word and whether all is sound that the word does not show. Where exactly one pulse of each pair is nearer than medium,
// the two halves of the word add up to ones alone.
fn close(word: u32, sound: bool) -> Option<u8>
    ensures { result ≡ closed word sound }
{
    let first = word % HALF / FIRST;
    let second = word / HALF / FIRST;
    let value = (first % VALUES) as u8;
    let odd = super::is_odd(u8::count_ones(value) + first / VALUES);
    ((first + second == PARITY - 1) & odd & sound).then_some(value)
}
