// Both copies of a block that lies on a strip.
ghost use Rattle.std.specs.Prelude.{◌+◌, ◌-◌, ◌≤◌, ◌<◌, ◌≡◌, length};
ghost use Rattle.lists.specs.Places.{part};
ghost use Rattle.start.specs.Copies.{byte_place, copy_two, end_of};

use super::Extent;
use pulse::Thresholds;
use start::{Copies, EXTRA_BYTES};

// A strip, with the places where the copies of n payload bytes begin on it. Copy two ends on it too.
#[derive(Clone, Copy)]
pub struct BothCopies<'a> {
    pub t: Thresholds,
    pub strip: &'a [u32],
    pub one: usize,
    pub two: usize,
    pub n: usize,
    ghost within: { (two ≡ copy_two one n) × (end_of one n ≤ length strip.now) },
}

impl<'a> BothCopies<'a> {
    pub fn new(t: Thresholds, strip: &'a [u32], copies: Copies, n: usize) -> BothCopies<'a>
        requires { (copies.two ≡ copy_two copies.one n) × (copies.end ≡ end_of copies.one n) × (copies.end ≤ length strip.now) }
        ensures { (result.t ≡ t) × (result.strip ≡ strip.entry) × (result.one ≡ copies.one) × (result.two ≡ copies.two) × (result.n ≡ n) }
    {
        BothCopies {
            t,
            strip,
            one: copies.one,
            two: copies.two,
            n,
        }
    }

    // Where the block stands. The end is made again: kept, it would be one number more that goes with each call.
    pub fn extent(&self) -> Extent
        ensures { result ≡ record { n = self.now.n; start = self.now.one; end = end_of self.now.one self.now.n } }
    {
        Extent {
            n: self.n,
            start: self.one,
            end: self.two + byte::BYTE_PULSES * (self.n + EXTRA_BYTES),
        }
    }

    // Byte place j of the copy that begins at `copy`. These two go in together: a struct of them would have to hold the copies, to know that it lies
    // on them.
    pub fn frame(&self, copy: usize, j: usize) -> &'a [u32]
        requires { (copy ≤ self.now.two) × (j < self.now.n + 10) }
        ensures { result.now ≡ part self.now.strip.now (byte_place copy j) (byte_place copy j + 20 - byte_place copy j) }
    {
        let at = copy + byte::BYTE_PULSES * j;
        &self.strip[at..at + byte::BYTE_PULSES]
    }
}
