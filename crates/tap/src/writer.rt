// Writing a file. The forms are measured first, so that nothing is put where a duration has none or there is no room; then the header and
// the forms are put. A buffer and a place go into a function: its promise says by `sets` what is put where, and that all else stays. Where a number
// gets wider by `as` it is from `u32` to `usize`: there is no From.
// A version and durations go into seven functions: two of these take a group of the durations, so a struct of both would be made anew for each
// group, and no fact joins the two.
ghost use Rattle.std.specs.Prelude.{◌+◌, ◌≤◌, ◌≡◌, cond, ◌∷◌, map, length, None, Some};
ghost use Rattle.std.proofs.lemmas.List.Edits.{sets};
ghost use Rattle.lists.specs.Text.{low_first};
ghost use Rattle.refusal.specs.Outcome.{mapped, outcome_of};
ghost use Rattle.refusal.specs.Promise.{Written};
ghost use Rattle.tap.specs.Tap.{form_of, tap_data, first_without, data_of, put_file};
ghost use Rattle.tap.specs.private.Forms.{no_zeros, byte_units, is_missing};

use super::forms::{Form, LONG_BYTES};
use super::{TAP_HEADER_BYTES, forms, groups, header};
use pulse::Cycles;
use refusal::{Reason, Refusal};

// How many data bytes the durations take, or the first that has no form.
pub fn measure_forms(version: u8, durations: &[u32]) -> Result<usize, Refusal>
    requires { length durations.now ≤ 1048576 }
    ensures { outcome_of result ≡ mapped length (data_of version durations.now) }
{
    let Some(n) = sum_widths(version, durations) else {
        let i = first_without(version, durations).unwrap();
        return Err(Refusal::at(Reason::NoTapForm, i));
    };
    Ok(n as usize)
}

// How many bytes there are in all forms; none where a form is missing. A sum of Options would end at the first that is missing, and so branch, and
// a fold would be over a pair of both: no plainer.
fn sum_widths(version: u8, durations: &[u32]) -> Option<u32>
    requires { length durations.now ≤ 1048576 }
    ensures { result ≡ cond (is_missing version durations.now) None (Some (length (tap_data version durations.now))) }
{
    let mut bytes: u32 = 0;
    let mut missing = false;
    for duration in durations {
        let form = forms::form_of(version, Cycles(*duration));
        bytes += form.map_or(0, Form::width);
        missing |= form.is_none();
    }
    (!missing).then_some(bytes)
}

// The first duration that has no form.
fn first_without(version: u8, durations: &[u32]) -> Option<usize>
    ensures { result ≡ first_without version durations.now }
{
    // By its width: `is_none` of a form takes twice as long.
    durations.iter().position(|duration| forms::width_of(version, Cycles(*duration)) == 0)
}

// Writes a file of n data bytes, at most four for each duration.
pub fn put_file(version: u8, durations: &[u32], n: usize, out: &mut [u8]) -> Result<usize, Refusal>
    requires count { n ≡ length (tap_data version durations.now) }
    requires fits { n ≤ 4194304 }
    ensures { Written (put_file (length out.old) version (tap_data version durations.now)) out.old result out.new }
{
    let count = TAP_HEADER_BYTES + n;
    if out.len() < count {
        return Err(Reason::NoRoom.into());
    }
    let front = header::tap_header(version, n as u32);
    out[..TAP_HEADER_BYTES].copy_from_slice(&front);
    put_data(version, durations, out);
    Ok(count)
}

// Puts the forms of the durations after the header.
fn put_data(version: u8, durations: &[u32], out: &mut [u8])
    requires { 20 + length (tap_data version durations.now) ≤ length out.old }
    ensures { out.new ≡ sets out.old 20 (tap_data version durations.now) }
{
    let mut at = TAP_HEADER_BYTES;
    for group in durations.chunks(groups::GROUP) {
        at = put_group(version, group, out, at);
    }
}

// Puts forms from a place on, and answers the place after them.
fn put_group(version: u8, durations: &[u32], out: &mut [u8], at: usize) -> usize
    requires { at + length (tap_data version durations.now) ≤ length out.old }
    ensures value { result ≡ at + length (tap_data version durations.now) }
    ensures put { out.new ≡ sets out.old at (tap_data version durations.now) }
{
    if all_bytes(durations) {
        groups::put_mapped(durations, out, at, |duration| {
            forms::byte_units(Cycles(duration)).0 as u8
        });
        return at + durations.len();
    }
    put_each(version, durations, out, at)
}

// Whether all durations have the one-byte form. The loop takes each, where `all` ends at the first that has it not. By a fold, writing drifted
// pulses takes four tenths more time, and long forms a tenth.
fn all_bytes(durations: &[u32]) -> bool
    ensures { result ≡ no_zeros (map byte_units durations.now) }
{
    let mut all = true;
    for duration in durations {
        all &= forms::byte_units(Cycles(*duration)).0 != 0;
    }
    all
}

// Puts the forms one by one.
fn put_each(version: u8, durations: &[u32], out: &mut [u8], start: usize) -> usize
    requires { start + length (tap_data version durations.now) ≤ length out.old }
    ensures value { result ≡ start + length (tap_data version durations.now) }
    ensures put { out.new ≡ sets out.old start (tap_data version durations.now) }
{
    let mut at = start;
    for duration in durations {
        at = put_form(version, Cycles(*duration), out, at);
    }
    at
}

// Puts the form of a duration, where it has one, and answers the place after it.
fn put_form(version: u8, duration: Cycles, out: &mut [u8], at: usize) -> usize
    requires { at + length (form_of version duration.0) ≤ length out.old }
    ensures value { result ≡ at + length (form_of version duration.0) }
    ensures put { out.new ≡ sets out.old at (form_of version duration.0) }
{
    match forms::form_of(version, duration) {
        None => at,
        Some(Form::Byte(b)) => {
            out[at] = b;
            at + 1
        }
        Some(Form::Long(cycles)) => {
            put_long(cycles, out, at);
            at + LONG_BYTES
        }
    }
}

fn put_long(duration: Cycles, out: &mut [u8], at: usize)
    requires { at + 4 ≤ length out.old }
    ensures { out.new ≡ sets out.old at (0 ∷ low_first 3 duration.0) }
{
    out[at] = 0;
    out[at + 1..at + LONG_BYTES].copy_from_slice(&duration.0.to_le_bytes()[..LONG_BYTES - 1]);
}
