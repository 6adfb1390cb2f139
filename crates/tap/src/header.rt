// The header of a TAP file: 20 bytes, read and made.
//
//   0 .. 11        12       13 .. 15  16 .. 19
//   C64-TAPE-RAW   version  0, 0, 0   number of data bytes, low first
ghost use Rattle.std.specs.Prelude.{◌≤◌, ◌≡◌, length};
ghost use Rattle.refusal.specs.Outcome.{outcome_of};
ghost use Rattle.tap.specs.Tap.{tap_header};
ghost use Rattle.tap.specs.Reading.{wrong_letters, wrong_count, tap_version};

use super::{LAST_VERSION, TAP_HEADER_BYTES};
use refusal::{Reason, Refusal};

// The header of version 0 with no data.
const HEADER: [u8; TAP_HEADER_BYTES] = *b"C64-TAPE-RAW\0\0\0\0\0\0\0\0";

// Where the letters end and the version stands.
const VERSION_AT: usize = 12;

const RESERVED_AT: usize = 13;

// Where the number of data bytes stands.
const COUNT_AT: usize = 16;

pub fn tap_version(file: &[u8]) -> Result<u8, Refusal>
    ensures { outcome_of result ≡ tap_version file.now }
{
    if wrong_letters(file) {
        return Err(Reason::WrongTapHeader.into());
    }
    let version = file[VERSION_AT];
    if LAST_VERSION < version {
        return Err(Reason::WrongTapVersion.into());
    }
    if wrong_count(file) {
        return Err(Reason::WrongTapHeader.into());
    }
    Ok(version)
}

// Whether there are fewer than 20 bytes, or other letters in front. `==` on slices is a call that takes more stack than the interface for C states.
fn wrong_letters(file: &[u8]) -> bool
    ensures { result ≡ wrong_letters file.now }
{
    if file.len() < TAP_HEADER_BYTES {
        return true;
    }
    let header = HEADER;
    !check::same(&file[..VERSION_AT], &header[..VERSION_AT])
}

// Whether a reserved byte is not zero, or the number of data bytes is wrong. From `u32` to `usize` it is `as`: there is no From.
fn wrong_count(file: &[u8]) -> bool
    requires { 20 ≤ length file.now }
    ensures { result ≡ wrong_count file.now }
{
    if !check::same(&file[RESERVED_AT..COUNT_AT], &[0u8; COUNT_AT - RESERVED_AT]) {
        return true;
    }
    let count = u32::from_le_bytes([
        file[COUNT_AT],
        file[COUNT_AT + 1],
        file[COUNT_AT + 2],
        file[COUNT_AT + 3],
    ]);
    count as usize != file.len() - TAP_HEADER_BYTES
}

pub fn tap_header(version: u8, n: u32) -> [u8; TAP_HEADER_BYTES]
    ensures { result ≡ tap_header version n }
{
    let mut header = HEADER;
    header[VERSION_AT] = version;
    header[COUNT_AT..].copy_from_slice(&n.to_le_bytes());
    header
}
