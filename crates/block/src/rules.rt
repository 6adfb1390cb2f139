// Rules 2 to 5, in the order of document 01.
ghost use Rattle.std.specs.Prelude.{◌*◌, ◌≤◌, ◌<◌, ◌≡◌, eqb, length};
ghost use Rattle.refusal.specs.Outcome.{outcome_of};
ghost use Rattle.pulse.specs.Pulse.{classes};
ghost use Rattle.block.specs.Reading.{is_counted, read_at, BlockPromise};
ghost use Rattle.block.specs.private.Both.{classes_of, read_both};
ghost use Rattle.block.specs.private.Checks.{countdown_checked, sum_checked, Checked};

use super::copies::BothCopies;
use super::{COUNTDOWNS, Extent, PlaceRead, flags};
use pulse::Thresholds;
use refusal::{Reason, Refusal};
use start::COUNTDOWN_BYTES;

// Rules 2 to 5, for a start that was found.
pub fn read_at(
    t: Thresholds,
    strip: &[u32],
    start: usize,
    n: usize,
    out: &mut [u8],
) -> Result<Extent, Refusal>
    requires { (n ≤ 8192) × (n ≤ length out.old) }
    ensures { BlockPromise (read_at (classes t strip.now) start n) out.old result out.new }
{
    let copies = start::locate_copies(strip.len(), start, n)?;
    BothCopies::new(t, strip, copies, n).read_payload(out)
}

impl<'a> BothCopies<'a> {
    // Rules 3 to 5. Nothing is put before all of them hold. A row of flags tells the groups of places in which one is repaired.
    fn read_payload(&self, out: &mut [u8]) -> Result<Extent, Refusal>
        requires { (self.now.n ≤ 8192) × (self.now.n ≤ length out.old) }
        ensures { BlockPromise (read_both self.now) out.old result out.new }
    {
        self.check_countdown()?;
        let mut row = [0u8; flags::ROW_BYTES];
        let repaired = self.check_values(&mut row)?;
        self.fill_values(repaired, &row, out);
        Ok(self.extent())
    }

    // Rule 3. It refuses the first countdown place where neither copy holds its byte.
    #[inline(always)]
    pub fn check_countdown(&self) -> Result<(), Refusal>
        ensures { outcome_of result ≡ countdown_checked (classes_of self.now) self.now.one self.now.two tt }
    {
        // With `find` it would be no plainer: the closure would have to say that i is below nine, as `is_counted` asks.
        for i in 0..COUNTDOWN_BYTES {
            if !self.is_counted(i) {
                return Err(Refusal::at(Reason::WrongCountdown, i));
            }
        }
        Ok(())
    }

    // Rule 3 at countdown place i.
    #[inline(always)]
    fn is_counted(&self, i: usize) -> bool
        requires { i < 9 }
        ensures { result ≡ is_counted (classes_of self.now) self.now.one self.now.two i }
    {
        (self.value(self.one, i) == Some(COUNTDOWNS[0][i]))
            || (self.value(self.two, i) == Some(COUNTDOWNS[1][i]))
    }

    // Rules 4 and 5: how many places are repaired, the checksum's among them. It refuses the first lost place, with its causes, and a checksum
    // that does not hold for the repaired values. The flag of a repaired place's group is raised.
    fn check_values(&self, row: &mut [u8]) -> Result<usize, Refusal>
        requires { self.now.n ≤ 128 * length row.old }
        ensures { Checked (classes_of self.now) self.now.one self.now.two self.now.n result row.new }
    {
        let mut sum: u8 = 0;
        let mut repaired: usize = 0;
        // With `..=` the proof did not close: it lacks that the range is over.
        for i in 0..self.n + 1 {
            match self.read_place(i) {
                PlaceRead::One(first) => {
                    sum ^= first;
                }
                PlaceRead::Two(second) => {
                    flags::raise_flag(row, i / flags::GROUP_PLACES);
                    repaired += 1;
                    sum ^= second;
                }
                PlaceRead::Neither(causes) => {
                    return Err(Refusal::at(Reason::LostByte(causes), i));
                }
            }
        }
        self.check_sum(sum).and(Ok(repaired))
    }

    // Rule 5, by the values and the checksum, all XORed: these are 0 exactly where it holds.
    pub fn check_sum(&self, sum: u8) -> Result<(), Refusal>
        ensures { outcome_of result ≡ sum_checked (eqb sum 0) self.now.n tt }
    {
        if sum == 0 {
            Ok(())
        } else {
            Err(Refusal::at(Reason::WrongChecksum, self.n))
        }
    }
}
