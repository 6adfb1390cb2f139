// Reading the data. The durations are counted first, so that nothing is put where a form is cut short or there is no room; then they are
// filled in. Counting and filling have loops of their own: counting refuses, and takes a group of long forms by its zero bytes; filling puts, and
// cannot refuse. One walk for both would be longer than its two loops: a trait, an implementor for each, and a Result where filling has none.
// The data and a place go into four functions: the place is another for each group, so a struct of both would be made anew each time, and say no
// more.
ghost use Rattle.std.specs.Prelude.{◌+◌, ◌≤◌, ◌<◌, ◌≡◌, length};
ghost use Rattle.std.proofs.lemmas.List.Edits.{sets};
ghost use Rattle.refusal.specs.Outcome.{accepted, mapped, puts, outcome_of};
ghost use Rattle.tap.specs.Reading.{durations_in, TapPromise};
ghost use Rattle.tap.specs.private.Reader.{read_durations, Counted, CountedOn, form_end, Fillable, FilledTo};

use super::forms::LONG_BYTES;
use super::{TapInfo, forms, groups};
use refusal::{Reason, Refusal};

// Reads the data of a file whose header is sound.
pub fn read_durations(version: u8, bytes: &[u8], out: &mut [u32]) -> Result<TapInfo, Refusal>
    ensures { TapPromise (read_durations (length out.old) version bytes.now) out.old result out.new }
{
    let count = count_durations(version, bytes)?;
    if out.len() < count {
        return Err(Reason::NoRoom.into());
    }
    fill_durations(version, bytes, out);
    Ok(TapInfo { version, count })
}

// How many durations the data hold. In version 0 every byte is one.
fn count_durations(version: u8, bytes: &[u8]) -> Result<usize, Refusal>
    ensures { outcome_of result ≡ mapped length (durations_in version 0 bytes.now) }
{
    if version == 0 {
        return Ok(bytes.len());
    }
    let mut at = FormPlace { place: 0, count: 0 };
    // A group ends with its last form, which may reach into the next.
    while at.place < bytes.len() {
        at = count_group(bytes, at)?;
    }
    Ok(at.count)
}

// A place in the data of version 1 where a form begins, and the number of durations before it.
#[derive(Clone, Copy)]
struct FormPlace {
    place: usize,
    count: usize,
}

// Counts a group. Where no zero byte stands in the three bytes after another, each begins a long form, and for each there are three durations
// fewer than bytes.
fn count_group(bytes: &[u8], start: FormPlace) -> Result<FormPlace, Refusal>
    requires in_bounds { start.place < length bytes.now }
    requires counted { Counted bytes.now start.place start.count }
    ensures { CountedOn bytes.now start result }
{
    let end = groups::group_end(start.place, bytes.len());
    if groups::no_zeros(&bytes[start.place..end]) {
        return Ok(FormPlace {
            place: end,
            count: start.count + (end - start.place),
        });
    }
    if LONG_BYTES <= bytes.len() - end {
        if let Some(zeros) = groups::zeros_in(bytes, start.place, end) {
            let place = form_end(bytes, end);
            return Ok(FormPlace {
                place,
                count: start.count + (place - start.place) - (LONG_BYTES - 1) * usize::from(zeros),
            });
        }
    }
    count_each(bytes, start, end)
}

// Where the last form ends that begins before a place, if each zero byte begins a long form.
fn form_end(bytes: &[u8], end: usize) -> usize
    requires { (4 ≤ end) × (end + 4 ≤ length bytes.now) }
    ensures { result ≡ form_end bytes.now end }
{
    if bytes[end - 1] == 0 {
        end + 3
    } else if bytes[end - 2] == 0 {
        end + 2
    } else if bytes[end - 3] == 0 {
        end + 1
    } else {
        end
    }
}

// Counts form by form, to the end of a group.
fn count_each(bytes: &[u8], start: FormPlace, end: usize) -> Result<FormPlace, Refusal>
    requires group { (start.place < end) × (end ≤ length bytes.now) }
    requires counted { Counted bytes.now start.place start.count }
    ensures { CountedOn bytes.now start result }
{
    let mut i = start.place;
    let mut count = start.count;
    // The index goes from form to form.
    while i < end {
        if bytes[i] != 0 {
            i += 1;
        } else {
            if bytes.len() - i < LONG_BYTES {
                return Err(Refusal::at(Reason::CutLongForm, i));
            }
            i += LONG_BYTES;
        }
        count += 1;
    }
    Ok(FormPlace { place: i, count })
}

fn fill_durations(version: u8, bytes: &[u8], out: &mut [u32])
    requires sound { durations_in version 0 bytes.now ≡ accepted (puts (durations_in version 0 bytes.now)) }
    requires room { length (puts (durations_in version 0 bytes.now)) ≤ length out.old }
    ensures { out.new ≡ sets out.old 0 (puts (durations_in version 0 bytes.now)) }
{
    if version == 0 {
        groups::put_mapped(bytes, out, 0, |b| forms::lone_cycles(b).0);
        return;
    }
    let mut at = FormPlace { place: 0, count: 0 };
    // A group ends with its last form, which may reach into the next.
    while at.place < bytes.len() {
        at = fill_group(bytes, at, out);
    }
}

fn fill_group(bytes: &[u8], start: FormPlace, out: &mut [u32]) -> FormPlace
    requires in_bounds { start.place < length bytes.now }
    requires fillable { Fillable bytes.now start.place out.old start.count }
    ensures further { start.place < result.place }
    ensures filled { FilledTo bytes.now start.place out.old start.count result.place out.new result.count }
{
    let end = groups::group_end(start.place, bytes.len());
    let group = &bytes[start.place..end];
    if groups::no_zeros(group) {
        groups::put_mapped(group, out, start.count, |b| forms::lone_cycles(b).0);
        return FormPlace {
            place: end,
            count: start.count + (end - start.place),
        };
    }
    fill_each(bytes, start, end, out)
}

// Fills in durations form by form, to the end of a group.
fn fill_each(bytes: &[u8], start: FormPlace, end: usize, out: &mut [u32]) -> FormPlace
    requires group { (start.place < end) × (end ≤ length bytes.now) }
    requires fillable { Fillable bytes.now start.place out.old start.count }
    ensures further { start.place < result.place }
    ensures filled { FilledTo bytes.now start.place out.old start.count result.place out.new result.count }
{
    let mut i = start.place;
    let mut k = start.count;
    // The index goes from form to form.
    while i < end {
        let first = bytes[i];
        if first != 0 {
            out[k] = pulse::byte_cycles(first).0;
            i += 1;
        } else {
            out[k] = forms::long_cycles(bytes, i).0;
            i += LONG_BYTES;
        }
        k += 1;
    }
    FormPlace { place: i, count: k }
}
