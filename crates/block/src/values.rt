// The values of a block that passed. In a group without a repaired place no byte is checked again. What is here is here for speed.
//
// That no place is lost stays a clause: a type for copies that passed would be no plainer, since each clause would name the copies in it. That the
// output has room is one too: it is lent. The loops put by an index, which is the place in the copy and in the output: the promise says by `sets`
// that all after it stays, so a loop over a part of the output would be no plainer.
ghost use Rattle.std.specs.Prelude.{◌-◌, ◌≤◌, ◌<◌, ◌≡◌, false, cond, ltb, length};
ghost use Rattle.std.proofs.lemmas.List.Edits.{sets};
ghost use Rattle.lists.specs.Places.{tabulate};
ghost use Rattle.block.specs.Reading.{is_lost, value_at};
ghost use Rattle.block.specs.private.Both.{classes_of, values_of, NoneLostOf, repairs_of, FlaggedOf, HoldsOne};
ghost use Rattle.block.specs.private.Values.{bits_of};
ghost use Rattle.block.specs.private.Checks.{SameFlags};

use super::copies::BothCopies;
use super::flags;
use pulse::Cycles;
use start::COUNTDOWN_BYTES;

impl<'a> BothCopies<'a> {
    // Puts the values of a block that passed: the bits of one copy, and where some places are repaired and some are not, the runs with a repaired
    // one again.
    pub fn fill_values(&self, repaired: usize, row: &[u8], out: &mut [u8])
        requires room { self.now.n ≤ length out.old }
        requires none_lost { NoneLostOf self.now × (repaired ≡ repairs_of self.now) × FlaggedOf self.now row.now }
        ensures { out.new ≡ sets out.old 0 (values_of self.now) }
    {
        self.fill_copy(self.whole_copy(repaired), out);
        if (repaired == 0) | (self.n < repaired) {
            return;
        }
        self.mend_runs(row, out);
    }

    // The copy whose bits are put first: copy two where every place is repaired, else copy one.
    fn whole_copy(&self, repaired: usize) -> usize
        ensures { result ≡ cond (ltb self.now.n repaired) self.now.two self.now.one }
    {
        if self.n < repaired {
            self.two
        } else {
            self.one
        }
    }

    // Puts the values run by run into a buffer that holds copy one's bits. In a run whose flags are down these are the values.
    fn mend_runs(&self, row: &[u8], out: &mut [u8])
        requires room { self.now.n ≤ length out.old }
        requires none_lost { NoneLostOf self.now × FlaggedOf self.now row.now × HoldsOne self.now out.old }
        ensures { out.new ≡ sets out.old 0 (values_of self.now) }
    {
        // The place goes on by runs, so no `for` counts it.
        let mut i: usize = 0;
        while i < self.n {
            let end = run_end(row, i, self.n);
            if flags::flag(row, i / flags::GROUP_PLACES) {
                self.fill_places(i, end, out);
            }
            i = end;
        }
    }

    // Puts the bits of one copy's bytes. No byte is checked.
    fn fill_copy(&self, copy: usize, out: &mut [u8])
        requires { (copy ≤ self.now.two) × (self.now.n ≤ length out.old) }
        ensures { out.new ≡ sets out.old 0 (tabulate (bits_of self.now.t self.now.strip.now copy) self.now.n 0) }
    {
        for i in 0..self.n {
            out[i] = self.bits(copy, i);
        }
    }

    // Puts the values from place `from` to before `end`. Copy one's bytes are checked again.
    fn fill_places(&self, from: usize, end: usize, out: &mut [u8])
        requires within { (from ≤ end) × (end ≤ self.now.n) × (end ≤ length out.old) }
        requires none_lost { NoneLostOf self.now }
        ensures { out.new ≡ sets out.old from (tabulate (value_at (classes_of self.now) self.now.one self.now.two) (end - from) from) }
    {
        for i in from..end {
            out[i] = self.sound_value(i);
        }
    }

    // The value of a place that is not lost: copy one's byte where it is good, else copy two's bits.
    fn sound_value(&self, i: usize) -> u8
        requires { (i ≤ self.now.n) × (is_lost (classes_of self.now) self.now.one self.now.two i ≡ false) }
        ensures { result ≡ value_at (classes_of self.now) self.now.one self.now.two i }
    {
        let Some(value) = self.value(self.one, COUNTDOWN_BYTES + i) else {
            return self.bits(self.two, i);
        };
        value
    }

    // The value of the byte at place i of a copy, which is known to be good, by the first pulse of each bit's pair: 1 where that is not below the
    // medium threshold.
    fn bits(&self, copy: usize, i: usize) -> u8
        requires { (copy ≤ self.now.two) × (i ≤ self.now.n) }
        ensures { result ≡ bits_of self.now.t self.now.strip.now copy i }
    {
        let at = copy + byte::BYTE_PULSES * (COUNTDOWN_BYTES + i);
        let mut value: u8 = 0;
        // A bit's number is the place of its pair and its shift.
        for bit in 0..byte::BITS {
            let first = Cycles(self.strip[at + byte::PAIR_PULSES * (1 + bit)]);
            value |= u8::from(self.t.medium <= first) << bit;
        }
        value
    }
}

// The end of the run from place i on: the first place whose group has another flag, or n.
fn run_end(row: &[u8], i: usize, n: usize) -> usize
    requires { i < n }
    ensures { (i < result) × (result ≤ n) × SameFlags row.now i result }
{
    let up = flags::flag(row, i / flags::GROUP_PLACES);
    let last = (n - 1) / flags::GROUP_PLACES;
    // With `find` it would be no plainer: what it finds would still have to become a place, or n.
    for group in i / flags::GROUP_PLACES + 1..=last {
        if flags::flag(row, group) != up {
            return flags::GROUP_PLACES * group;
        }
    }
    n
}
