// TAP files, in which emulators exchange tapes: a list of durations in cycles.
//
//   0 .. 19   20 ..
//   header    data: the forms of the durations, one after the other
//
// `header` has the 20 bytes in front, `forms` what stands for a duration, `reader` and `writer` the data; `groups` is there for speed.
#![tactic(auto)]

mod forms;
mod groups;
mod header;
mod reader;
mod writer;

ghost use Rattle.std.specs.Prelude.{length};
ghost use Rattle.refusal.specs.Promise.{Written};
ghost use Rattle.tap.specs.Tap.{write_tap};
ghost use Rattle.tap.specs.Reading.{read_tap, TapPromise};

use refusal::{Reason, Refusal};

// The bytes before the data.
pub const TAP_HEADER_BYTES: usize = 20;

// A version is 0 or 1. An enum would be no plainer: the file and the definitions have a number.
const LAST_VERSION: u8 = 1;

// How many durations are written at the most. Document 01 has this limit and one for the report: they are two, of one size.
const MOST_DURATIONS: usize = 1_048_576;

// What an accepted TAP file answers: its version, and the number of durations put.
#[derive(Clone, Copy)]
pub struct TapInfo {
    pub version: u8,
    pub count: usize,
}

// Reads a TAP file: puts its durations, and answers its version and how many they are. It refuses a header that is cut short or wrong, a
// version above 1, a long form that is cut short and an output that is too short.
pub fn read_tap(file: &[u8], out: &mut [u32]) -> Result<TapInfo, Refusal>
    ensures { TapPromise (read_tap (length out.old) file.now) out.old result out.new }
{
    let version = header::tap_version(file)?;
    reader::read_durations(version, &file[TAP_HEADER_BYTES..], out)
}

// Writes durations as a TAP file of this version, and answers the number of bytes put. It refuses more than 1,048,576 durations, a
// version above 1, a duration that has no form in that version and an output that is too short.
pub fn write_tap(durations: &[u32], version: u8, out: &mut [u8]) -> Result<usize, Refusal>
    ensures { Written (write_tap (length out.old) version durations.now) out.old result out.new }
{
    if MOST_DURATIONS < durations.len() {
        return Err(Reason::WrongSize.into());
    }
    if LAST_VERSION < version {
        return Err(Reason::WrongTapVersion.into());
    }
    let n = writer::measure_forms(version, durations)?;
    writer::put_file(version, durations, n, out)
}
