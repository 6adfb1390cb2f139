// Looking at a block whose start is known: rules 3 to 5 without an output. Every place is counted, also after one that is lost.
ghost use Rattle.std.specs.Prelude.{◌+◌, ◌^◌, ◌≤◌, ◌<◌, ◌≡◌};
ghost use Rattle.lists.specs.Places.{Below};
ghost use Rattle.refusal.specs.Outcome.{refused_with, mapped, outcome_of};
ghost use Rattle.byte.specs.Byte.{value_in, byte_at};
ghost use Rattle.start.specs.Copies.{byte_place};
ghost use Rattle.block.specs.Reading.{place_at, extent_of};
ghost use Rattle.block.specs.Looking.{no_tally, look_answer, place_read};
ghost use Rattle.block.specs.private.Checks.{values_checked};
ghost use Rattle.block.specs.private.Both.{classes_of, read_both, tally_both};
ghost use Rattle.block.specs.private.Causes.{with_byte, with_place};

use super::copies::BothCopies;
use super::{ByCause, Look, PlaceRead, Tally};
use byte::{ByteRead, CAUSES};
use refusal::{Reason, Refusal};
use start::COUNTDOWN_BYTES;

// Whether rules 4 and 5 hold, and the counts.
#[derive(Clone, Copy)]
struct Counted {
    check: Result<(), Refusal>,
    tally: Tally,
}

// A refusal before any place is counted.
pub fn refused(r: Refusal) -> Look
    ensures { look_answer result ≡ record { outcome = refused_with r; tally = no_tally } }
{
    Look {
        answer: Err(r),
        tally: Tally::default(),
    }
}

impl<'a> BothCopies<'a> {
    // Rules 3 to 5.
    pub fn look(&self) -> Look
        ensures { look_answer result ≡ record { outcome = mapped extent_of (read_both self.now); tally = tally_both self.now } }
    {
        let countdown = self.check_countdown();
        let counted = self.count_places();
        let extent = self.extent();
        Look {
            answer: countdown.and(counted.check).and(Ok(extent)),
            tally: counted.tally,
        }
    }

    // Rules 4 and 5 at places 0 to n, and the bad bytes there. A lost place counts as 0 in the sum.
    fn count_places(&self) -> Counted
        ensures check { outcome_of result.check ≡ values_checked (classes_of self.now) self.now.one self.now.two self.now.n tt }
        ensures tally { result.tally ≡ tally_both self.now }
    {
        let mut sum: u8 = 0;
        let mut repaired: usize = 0;
        let mut lost: usize = 0;
        let mut check: Result<(), Refusal> = Ok(());
        let mut bad = [0u64; CAUSES];
        // With `..=` the proof did not close: it lacks that the range is over.
        for i in 0..self.n + 1 {
            match self.count_place(i, &mut bad) {
                PlaceRead::One(value) => {
                    sum ^= value;
                }
                PlaceRead::Two(value) => {
                    sum ^= value;
                    repaired += 1;
                }
                PlaceRead::Neither(causes) => {
                    check = check.and(Err(Refusal::at(Reason::LostByte(causes), i)));
                    lost += 1;
                }
            }
        }
        Counted {
            check: check.and(self.check_sum(sum)),
            tally: Tally {
                one: self.n + 1 - repaired - lost,
                two: repaired,
                lost,
                bad: ByCause::from(bad),
            },
        }
    }

    // Rule 4 at place i, where the bad bytes of both copies are counted. `read_place`, which looks at copy two only where copy one is bad, is faster.
    fn count_place(&self, i: usize, bad: &mut [u64; CAUSES]) -> PlaceRead
        requires { (i ≤ self.now.n) × Below (2 ^ 62) bad.old }
        ensures place { place_read result ≡ place_at (classes_of self.now) self.now.one self.now.two i }
        ensures bad_after { bad.new ≡ with_place (classes_of self.now) self.now.one self.now.two i bad.old }
    {
        let j = COUNTDOWN_BYTES + i;
        // Both are read before one is counted, for speed.
        let in_one = self.value(self.one, j);
        let in_two = self.value(self.two, j);
        let first = self.count_byte(self.one, j, in_one, bad);
        let second = self.count_byte(self.two, j, in_two, bad);
        PlaceRead::of(first, second)
    }

    // The byte at byte place j of a copy, by its value, where it has one. It is counted by its cause where it is bad.
    fn count_byte(
        &self,
        copy: usize,
        j: usize,
        read: Option<u8>,
        bad: &mut [u64; CAUSES],
    ) -> ByteRead
        requires place { (copy ≤ self.now.two) × (j < self.now.n + 10) }
        requires read { read ≡ value_in (byte_at (classes_of self.now) (byte_place copy j)) }
        requires counts { Below (2 ^ 63) bad.old }
        ensures byte { result ≡ byte_at (classes_of self.now) (byte_place copy j) }
        ensures bad_after { bad.new ≡ with_byte (byte_at (classes_of self.now) (byte_place copy j)) bad.old }
    {
        let Some(value) = read else {
            let cause = self.cause(copy, j);
            bad[usize::from(cause)] += 1;
            return ByteRead::Bad(cause);
        };
        ByteRead::Good(value)
    }
}
