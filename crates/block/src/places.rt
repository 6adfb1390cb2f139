// What is read of both copies, place by place. The readers of a value are inlined, since the thresholds' bounds are then made once for a block; it
// takes no more stack, as `is_counted` and `check_countdown` are inlined too.
ghost use Rattle.std.specs.Prelude.{◌+◌, ◌≤◌, ◌<◌, ◌≡◌};
ghost use Rattle.byte.specs.Byte.{value_in, first_wrong, twenty, byte_at};
ghost use Rattle.start.specs.Copies.{byte_place};
ghost use Rattle.block.specs.Reading.{place_at};
ghost use Rattle.block.specs.Looking.{place_read};
ghost use Rattle.block.specs.private.Both.{classes_of};

use super::PlaceRead;
use super::copies::BothCopies;
use refusal::Causes;
use start::COUNTDOWN_BYTES;

impl<'a> BothCopies<'a> {
    // The value there, where the byte is good.
    #[inline(always)]
    pub fn value(&self, copy: usize, j: usize) -> Option<u8>
        requires { (copy ≤ self.now.two) × (j < self.now.n + 10) }
        ensures { result ≡ value_in (byte_at (classes_of self.now) (byte_place copy j)) }
    {
        byte::read_frame(self.t, self.frame(copy, j))
    }

    // The cause there, where the byte is bad.
    pub fn cause(&self, copy: usize, j: usize) -> u8
        requires { (copy ≤ self.now.two) × (j < self.now.n + 10) }
        ensures { result ≡ first_wrong (twenty (classes_of self.now) (byte_place copy j)) }
    {
        byte::first_wrong(self.t, self.frame(copy, j))
    }

    // Rule 4 at place i after the countdown: copy one's byte where it is good, else copy two's, and the causes where both are bad.
    #[inline(always)]
    pub fn read_place(&self, i: usize) -> PlaceRead
        requires { i ≤ self.now.n }
        ensures { place_read result ≡ place_at (classes_of self.now) self.now.one self.now.two i }
    {
        let j = COUNTDOWN_BYTES + i;
        let Some(first) = self.value(self.one, j) else {
            let Some(second) = self.value(self.two, j) else {
                return PlaceRead::Neither(Causes {
                    one: self.cause(self.one, j),
                    two: self.cause(self.two, j),
                });
            };
            return PlaceRead::Two(second);
        };
        PlaceRead::One(first)
    }
}
