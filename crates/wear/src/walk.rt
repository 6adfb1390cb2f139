// One step of a walk, on the slice and the numbers. Its parts take them one by one: a struct with `entry` in every clause is no plainer. That a
// header's copies lie on the strip is a clause of three: the type that knows it is `block`'s own.
ghost use Rattle.std.specs.Prelude.{◌≤◌, ◌<◌, ◌≡◌, false, length};
ghost use Rattle.refusal.specs.Outcome.{mapped, outcome_of};
ghost use Rattle.pulse.specs.Pulse.{fixed, classes};
ghost use Rattle.start.specs.Copies.{copy_two, end_of};
ghost use Rattle.block.specs.Block.{wrong_size};
ghost use Rattle.block.specs.Reading.{value_at, values_at, extent_of, read_at};
ghost use Rattle.header.specs.Header.{fields_of};
ghost use Rattle.wear.specs.Walk.{size_of, block_of, after_block, next_spot, try_at, step_from, tried_block, step_answer};

use super::{Spot, Trial, Tried};
use block::Extent;
use header::{Fields, HEADER_BYTES};
use refusal::{DATA_BLOCK, HEADER_BLOCK, Reason, Refusal};

// The first start at or after the place, and the block there.
pub fn step_at(strip: &[u32], at: Spot) -> Result<Tried, Refusal>
    ensures { step_answer result ≡ step_from (classes fixed strip.now) at }
{
    if block::wrong_size(at.trial.size()) {
        return Err(Reason::WrongSize.into());
    }
    let start = block::start_from(strip, at.from).ok_or(Reason::NoStart)?;
    Ok(try_at(strip, at.trial, start))
}

// The block with its start at a place.
fn try_at(strip: &[u32], trial: Trial, start: usize) -> Tried
    requires { (wrong_size (size_of trial) ≡ false) × (start < length strip.now) }
    ensures { tried_block result ≡ try_at (classes fixed strip.now) trial start }
{
    let n = trial.size();
    let look = block::look_at(strip, start, n);
    let answer = look.answer;
    Tried {
        n,
        start,
        answer: answer.map_err(|r| r.in_block(trial.block())),
        tally: look.tally,
        next: next_spot(strip, trial, start, answer),
    }
}

impl Trial {
    fn size(self) -> usize
        ensures { result ≡ size_of self }
    {
        match self {
            Trial::Header => HEADER_BYTES,
            Trial::Data(n) => n,
        }
    }

    // The block that a refusal names.
    fn block(self) -> u32
        ensures { result ≡ block_of self }
    {
        match self {
            Trial::Header => HEADER_BLOCK,
            Trial::Data(_) => DATA_BLOCK,
        }
    }
}

// Where the walk goes on, by what was answered: one pulse past the start of a refused block, with a header, or at the end of an accepted one.
fn next_spot(strip: &[u32], trial: Trial, start: usize, answer: Result<Extent, Refusal>) -> Spot
    requires { (outcome_of answer ≡ mapped extent_of (read_at (classes fixed strip.now) start (size_of trial))) × (start < length strip.now) }
    ensures { result ≡ next_spot trial start (read_at (classes fixed strip.now) start (size_of trial)) }
{
    match answer {
        Err(_) => Spot {
            from: start + 1,
            trial: Trial::Header,
        },
        Ok(e) => Spot {
            from: e.end,
            trial: next_trial(strip, trial, start),
        },
    }
}

// What is tried after an accepted block: the data block of a program's header, else a header.
fn next_trial(strip: &[u32], trial: Trial, start: usize) -> Trial
    requires { end_of start (size_of trial) ≤ length strip.now }
    ensures { result ≡ after_block trial (values_at (classes fixed strip.now) start (copy_two start (size_of trial)) (size_of trial)) }
{
    match trial {
        Trial::Data(_) => Trial::Header,
        Trial::Header => file::measure_data(fields_at(strip, start)).map_or(
            Trial::Header,
            Trial::Data,
        ),
    }
}

// Type and addresses of the header with its start at a place.
fn fields_at(strip: &[u32], start: usize) -> Fields
    requires { end_of start 192 ≤ length strip.now }
    ensures { result ≡ fields_of (values_at (classes fixed strip.now) start (copy_two start 192) 192) }
{
    header::fields_in(std::array::from_fn(|i| byte_at(strip, start, i)))
}

// Byte i of the header with its start at a place, 0 where it is lost. Its copies lie on the strip, so `place_at` refuses nothing.
fn byte_at(strip: &[u32], start: usize, i: usize) -> u8
    requires { (end_of start 192 ≤ length strip.now) × (i ≤ 192) }
    ensures { result ≡ value_at (classes fixed strip.now) start (copy_two start 192) i }
{
    block::place_at(strip, start, HEADER_BYTES, i)
        .unwrap()
        .value()
}
