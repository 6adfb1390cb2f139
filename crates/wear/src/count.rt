// What one strip adds to the totals.
ghost use Rattle.std.specs.Prelude.{◌≤◌, ◌≡◌, length};
ghost use Rattle.pulse.specs.Pulse.{fixed, classes};
ghost use Rattle.wear.specs.Walk.{blocks};
ghost use Rattle.wear.specs.private.Counts.{pulses_of, places_of, both_bad, BothFit, both_tallies, TalliesFit};

use super::{Spot, Trial};
use block::{ByCause, Tally};
use pulse::{Cycles, Thresholds};

// The pulses of each class.
#[derive(Clone, Copy)]
pub struct Pulses {
    pub shorts: u64,
    pub mediums: u64,
    pub longs: u64,
    pub noises: u64,
}

// Counts the pulses of each class, in one pass.
pub fn count_classes(strip: &[u32]) -> Pulses
    requires { length strip.now ≤ 1048576 }
    ensures { result ≡ pulses_of (classes fixed strip.now) }
{
    let t = Thresholds::fixed();
    let mut shorts: u32 = 0;
    let mut mediums: u32 = 0;
    let mut longs: u32 = 0;
    for pulse in strip {
        let pulse = Cycles(*pulse);
        shorts += u32::from(pulse::is_short(t, pulse));
        mediums += u32::from(pulse::is_medium(t, pulse));
        longs += u32::from(pulse::is_long(t, pulse));
    }
    // In 32 bits, so that the compiler takes many pulses at once. By `as`, since usize has no From into a number of bits.
    let noises = strip.len() as u32 - shorts - mediums - longs;
    Pulses {
        shorts: u64::from(shorts),
        mediums: u64::from(mediums),
        longs: u64::from(longs),
        noises: u64::from(noises),
    }
}

// Counts the places of all blocks of the walk, and their bad bytes, step by step.
pub fn count_places(strip: &[u32]) -> Tally
    requires { length strip.now ≤ 1048576 }
    ensures { result ≡ places_of (blocks (classes fixed strip.now)) }
{
    let mut sum = Tally::default();
    let mut at = Spot {
        from: 0,
        trial: Trial::Header,
    };
    while let Ok(b) = super::step_from(strip, at) {
        sum = add_tally(sum, b.tally);
        at = b.next;
    }
    sum
}

// The places and the bad bytes of both.
fn add_tally(a: Tally, b: Tally) -> Tally
    requires { TalliesFit a b }
    ensures { result ≡ both_tallies a b }
{
    Tally {
        one: a.one + b.one,
        two: a.two + b.two,
        lost: a.lost + b.lost,
        bad: add_bad(a.bad, b.bad),
    }
}

// The bad bytes of both. Field by field, since the fields are C's; a free function, since the type is of `block`, which never adds.
pub fn add_bad(a: ByCause, b: ByCause) -> ByCause
    requires { BothFit a b }
    ensures { result ≡ both_bad a b }
{
    ByCause {
        marker: a.marker + b.marker,
        bit0: a.bit0 + b.bit0,
        bit1: a.bit1 + b.bit1,
        bit2: a.bit2 + b.bit2,
        bit3: a.bit3 + b.bit3,
        bit4: a.bit4 + b.bit4,
        bit5: a.bit5 + b.bit5,
        bit6: a.bit6 + b.bit6,
        bit7: a.bit7 + b.bit7,
        parity: a.parity + b.parity,
        ones: a.ones + b.ones,
    }
}
