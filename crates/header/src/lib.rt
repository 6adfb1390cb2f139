// Headers. A header is the payload of a block of 192 bytes.
//
//   0     1, 2              3, 4            5 .. 191
//   type  start, low first  end, low first  name, filled with spaces; its first 16 bytes are shown
//
// The end address is one past the last byte of the program.
#![tactic(auto)]

ghost use Rattle.std.specs.Prelude.{◌+◌, ◌≤◌, ◌≡◌, length, get_or};
ghost use Rattle.std.proofs.lemmas.List.Edits.{sets};
ghost use Rattle.lists.specs.Text.{low_first};
ghost use Rattle.refusal.specs.Outcome.{outcome_of};
ghost use Rattle.refusal.specs.Promise.{Written};
ghost use Rattle.header.specs.Header.{filled, header_bytes, wrong_name, wrong_type, pack_header, word_at, fields_of, unpack_header};
ghost use Rattle.header.specs.Header.{shown_count, shown_name, shown_place, pointer_at};

use refusal::{Reason, Refusal};

pub const HEADER_BYTES: usize = 192;

const TYPE_AT: usize = 0;

const START_AT: usize = 1;

const END_AT: usize = 3;

// Where the name begins.
pub const NAME_AT: usize = 5;

const NAME_BYTES: usize = HEADER_BYTES - NAME_AT;

// How much of the name is shown.
const SHOWN_BYTES: usize = 16;

const SPACE: u8 = 0x20;

const LEAST_TYPE: u8 = 1;

const MOST_TYPE: u8 = 5;

// An address has two bytes, the low one first.
const WORD_BYTES: usize = 2;

// What a header says beside the name. The kind is what document 01 calls the type.
#[derive(Clone, Copy)]
pub struct Fields {
    // Any number: every call takes one, and refuses by 8 what it does not take.
    pub kind: u8,
    pub start: u16,
    pub end: u16,
}

// Puts a header together in a lent buffer, and answers the number of bytes put. It refuses a name that is too long, a type outside
// 1 to 5 and an output that is too short.
pub fn pack_header(fields: Fields, name: &[u8], out: &mut [u8]) -> Result<usize, Refusal>
    ensures { Written (pack_header (length out.old) fields name.now) out.old result out.new }
{
    if wrong_name(name.len()) {
        return Err(Reason::WrongSize.into());
    }
    if wrong_type(fields.kind) {
        return Err(Reason::WrongType.into());
    }
    if out.len() < HEADER_BYTES {
        return Err(Reason::NoRoom.into());
    }
    put_header(fields, name, out);
    Ok(HEADER_BYTES)
}

// Takes a header apart. It refuses what has not 192 bytes and a type outside 1 to 5.
#[tactic(auto, unfolding(crate::specs::Header::unpack_header))]
pub fn unpack_header(header: &[u8]) -> Result<Fields, Refusal>
    ensures { outcome_of result ≡ unpack_header header.now }
{
    if header.len() != HEADER_BYTES {
        return Err(Reason::WrongSize.into());
    }
    if wrong_type(header[TYPE_AT]) {
        return Err(Reason::WrongType.into());
    }
    Ok(fields_of(header))
}

// Type and addresses by the bytes before the name, whatever the type is.
pub fn fields_in(front: [u8; NAME_AT]) -> Fields
    ensures { result ≡ fields_of front }
{
    fields_of(&front)
}

// The shown name, as the part of the header that holds it: the first 16 bytes of the name without the spaces at their end. It is
// empty for a header that `unpack_header` refuses.
pub fn shown_name(header: &[u8]) -> &[u8]
    ensures bytes { result.now ≡ shown_name header.now }
    ensures place { result.ref_ptr ≡ pointer_at header.entry.ref_ptr (shown_place header.now) }
{
    let Ok(_) = unpack_header(header) else {
        return &header[..0];
    };
    let end = NAME_AT + shown_count(header);
    &header[NAME_AT..end]
}

fn wrong_name(n: usize) -> bool
    ensures { result ≡ wrong_name n }
{
    NAME_BYTES < n
}

fn wrong_type(kind: u8) -> bool
    ensures { result ≡ wrong_type kind }
{
    !(LEAST_TYPE..=MOST_TYPE).contains(&kind)
}

// Puts the bytes of a header in front.
fn put_header(fields: Fields, name: &[u8], out: &mut [u8])
    requires { 192 ≤ length out.old }
    ensures { out.new ≡ sets out.old 0 (header_bytes fields name.now) }
{
    out[TYPE_AT] = fields.kind;
    put_word(fields.start, out, START_AT);
    put_word(fields.end, out, END_AT);
    put_name(name, out);
}

// A buffer and a place go in: the promise says by `sets` what is put where.
fn put_word(word: u16, out: &mut [u8], at: usize)
    requires { at + 2 ≤ length out.old }
    ensures { out.new ≡ sets out.old at (low_first 2 word) }
{
    let end = at + WORD_BYTES;
    out[at..end].copy_from_slice(&word.to_le_bytes());
}

// Byte i of a name, a space past its end.
fn name_byte(name: &[u8], i: usize) -> u8
    ensures { result ≡ get_or name.now i 0x20 }
{
    name.get(i).copied().unwrap_or(SPACE)
}

// Byte by byte: `copy_from_slice` and `fill` are calls of the C library, and take more stack than the interface for C states.
fn put_name(name: &[u8], out: &mut [u8])
    requires { 192 ≤ length out.old }
    ensures { out.new ≡ sets out.old 5 (filled name.now) }
{
    for i in 0..NAME_BYTES {
        out[NAME_AT + i] = name_byte(name, i);
    }
}

#[tactic(auto, unfolding(crate::specs::Header::fields_of))]
fn fields_of(header: &[u8]) -> Fields
    requires { 5 ≤ length header.now }
    ensures { result ≡ fields_of header.now }
{
    Fields {
        kind: header[TYPE_AT],
        start: word_at(header, START_AT),
        end: word_at(header, END_AT),
    }
}

fn word_at(header: &[u8], at: usize) -> u16
    requires { at + 2 ≤ length header.now }
    ensures { result ≡ word_at header.now at }
{
    u16::from_le_bytes([header[at], header[at + 1]])
}

fn shown_count(header: &[u8]) -> usize
    requires { 21 ≤ length header.now }
    ensures { result ≡ shown_count header.now 16 }
{
    let shown = &header[NAME_AT..NAME_AT + SHOWN_BYTES];
    let spaces = shown.iter().rev().position(|b| *b != SPACE);
    SHOWN_BYTES - spaces.unwrap_or(SHOWN_BYTES)
}
