// How worn the strips of a collection are. A walk goes over the blocks of a strip, one after the other; the report adds what it finds to totals.
#![tactic(auto)]

mod count;
mod walk;

ghost use Rattle.std.specs.Prelude.{◌≡◌};
ghost use Rattle.refusal.specs.Outcome.{outcome_of};
ghost use Rattle.pulse.specs.Pulse.{fixed, classes};
ghost use Rattle.wear.specs.Walk.{step_from, step_answer};
ghost use Rattle.wear.specs.Report.{any_above, is_full, report_strip};
ghost use Rattle.wear.specs.private.Counts.{sums, SumsFit};

use block::{ByCause, Extent, Tally};
use byte::CAUSES;
use count::Pulses;
use refusal::{Reason, Refusal};

// What is tried at the next start: a header, which has 192 bytes, or the data block of a header that was read, with so many bytes. A data block
// of 192 bytes is not a header, and a header is not the absence of a data block: so this is no `Option`.
#[derive(Clone, Copy)]
pub enum Trial {
    Header,
    Data(usize),
}

// Where a walk stands: the place from which the next start is looked for, and what is tried there. It begins at place 0 with a header.
#[derive(Clone, Copy)]
pub struct Spot {
    pub from: usize,
    pub trial: Trial,
}

// A block that a walk found: how many payload bytes were tried, where it starts, what the rules answer, where its values come from, its bad
// bytes, and where the walk goes on. A refusal names block 1 where a data block was tried.
#[derive(Clone, Copy)]
pub struct Tried {
    pub n: usize,
    pub start: usize,
    pub answer: Result<Extent, Refusal>,
    pub tally: Tally,
    pub next: Spot,
}

// A walker holds the strip and where it stands on it.
#[derive(Clone, Copy)]
pub struct Walker<'a> {
    pub strip: &'a [u32],
    pub at: Spot,
}

impl<'a> Walker<'a> {
    pub fn new(strip: &'a [u32], at: Spot) -> Walker<'a>
        ensures { (result.strip ≡ strip.entry) × (result.at ≡ at) }
    {
        Walker { strip, at }
    }

    // Tries the block at the first start from where the walker stands. It refuses a data block of a wrong size and a strip with no start.
    pub fn step(self) -> Result<Tried, Refusal>
        ensures { step_answer result ≡ step_from (classes fixed self.entry.strip.now) self.entry.at }
    {
        walk::step_at(self.strip, self.at)
    }
}

// One step from any place of a strip, for callers that hold no walker.
pub fn step_from(strip: &[u32], at: Spot) -> Result<Tried, Refusal>
    ensures { step_answer result ≡ step_from (classes fixed strip.now) at }
{
    Walker::new(strip, at).step()
}

// ---- The report

// How many strips were reported, the pulses of each class on them, and of their blocks the places taken from copy one, taken from copy two, and
// lost, and the bad bytes. All are 0 to begin with.
#[derive(Clone, Copy)]
pub struct Totals {
    pub strips: u64,
    pub shorts: u64,
    pub mediums: u64,
    pub longs: u64,
    pub noises: u64,
    pub one: u64,
    pub two: u64,
    pub lost: u64,
    pub bad: ByCause,
}

const MOST_STRIPS: u64 = 1000;

// The report's own limit, which is as large as that of a TAP file's durations.
const MOST_PULSES: usize = 1_048_576;

const MOST_TOTAL: u64 = 1_000_000_000_000;

// Adds a strip to the totals. It refuses where these count 1,000 strips or more or one of them is above 1,000,000,000,000, and a strip of over
// 1,048,576 pulses. A strip adds at most 1,048,576 to the count of a class, and at most 8,193 places, with 16,386 bytes, for each of its pulses.
pub fn report(totals: Totals, strip: &[u32]) -> Result<Totals, Refusal>
    ensures { outcome_of result ≡ report_strip totals (classes fixed strip.now) }
{
    if totals.is_full() | (MOST_PULSES < strip.len()) {
        return Err(Reason::WrongSize.into());
    }
    let pulses = count::count_classes(strip);
    let places = count::count_places(strip);
    Ok(totals.plus(pulses, places))
}

impl Totals {
    // The totals with one strip more, its pulses, its places and its bad bytes. By `as`: no From goes from usize to 64 bits.
    fn plus(self, pulses: Pulses, places: Tally) -> Totals
        requires { SumsFit self pulses places }
        ensures { result ≡ sums self pulses places }
    {
        Totals {
            strips: self.strips + 1,
            shorts: self.shorts + pulses.shorts,
            mediums: self.mediums + pulses.mediums,
            longs: self.longs + pulses.longs,
            noises: self.noises + pulses.noises,
            one: self.one + places.one as u64,
            two: self.two + places.two as u64,
            lost: self.lost + places.lost as u64,
            bad: count::add_bad(self.bad, places.bad),
        }
    }

    // Whether no strip can be added to these totals.
    fn is_full(&self) -> bool
        ensures { result ≡ is_full self.now }
    {
        let counts: [u64; 7] = [
            self.shorts,
            self.mediums,
            self.longs,
            self.noises,
            self.one,
            self.two,
            self.lost,
        ];
        let causes = <[u64; CAUSES]>::from(self.bad);
        (MOST_STRIPS <= self.strips) | any_above(&counts) | any_above(&causes)
    }
}

// Whether one of them is above the limit.
fn any_above(counts: &[u64]) -> bool
    ensures { result ≡ any_above counts.now }
{
    counts.iter().any(|n| MOST_TOTAL < *n)
}
