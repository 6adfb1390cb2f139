// The listing of a tape: a heading, and a line on the program file that a TAP file holds, or why there is none.
//
//   type start end bytes name
//   1 0801 0811 16 GAME
//
//   type start end bytes name
//   refused 10 0 0
#![tactic(auto)]

ghost use Rattle.std.specs.Prelude.{◌+◌, ◌≤◌, ◌<◌, ◌≡◌, ◌∷◌, [], ◌++◌, map, length};
ghost use Rattle.lists.specs.Buffer.{put_at, Counts};
ghost use Rattle.refusal.specs.Refusal.{number_of};
ghost use Rattle.refusal.specs.Outcome.{mapped, puts, outcome_of};
ghost use Rattle.file.specs.File.{data_bytes};
ghost use Rattle.file.specs.Reading.{loaded_of, header_of};
ghost use Rattle.listing.specs.Listing.{digit, decimal, hexadecimal, field, printed, file_line, refusal_line, file_in, listing};
ghost use Rattle.listing.specs.private.Lines.{answer_text, HasRoom};
ghost use Rattle.arrayvec.specs.ArrayString.{array_string_len};

use arrayvec::ArrayString;
use file::Loaded;
use header::Fields;
use itoa::Buffer;
use refusal::{Reason, Refusal};
use std::io::{ErrorKind, Read};

// The longest input that is listed: 16 KiB.
const MOST_INPUT: usize = 16_384;

// Room for an input: one byte more, so that a longer one is seen to be too long.
pub const INPUT_ROOM: usize = MOST_INPUT + 1;

// The longest listing: the heading, and a refusal with three numbers of twenty digits.
pub const MOST_TEXT: usize = 97;

// Room for the durations of such an input: one for each data byte.
const STRIP_ROOM: usize = MOST_INPUT - tap::TAP_HEADER_BYTES;

// The text of a listing: the bytes put so far, with room for every text.
type Text = ArrayString<MOST_TEXT>;

// Lists the program file of a TAP file, from place 0 on: puts the text in front, and answers the number of bytes put. Where the file is
// refused the text says so; every text fits the buffer. The signature is public and stays: an array is lent, and the
// number says where the text ends.
pub fn list_tape(file: &[u8], out: &mut [u8; MOST_TEXT]) -> usize
    ensures count { result ≡ length (listing file.now) }
    ensures text { out.new ≡ put_at out.old 0 (listing file.now) }
    ensures part { Counts result out.new }
{
    let mut header = [0u8; header::HEADER_BYTES];
    let answer = load(file, &mut header);
    let text = text_of(answer, &header);
    let n = text.len();
    out[..n].copy_from_slice(text.as_bytes());
    n
}

// Reads until the buffer is full or the input ends, and answers how many bytes there are, as `Read::read` of std does. A read that fails counts as
// the end of the input.
pub fn read_input<R: Read>(input: &mut R, buffer: &mut [u8]) -> usize
    ensures part { result ≤ length buffer.new }
    ensures kept { length buffer.new ≡ length buffer.old }
{
    let mut n = 0;
    // Bounded, so that it ends even where every read is interrupted.
    for _ in 0..u64::MAX {
        if n == buffer.len() {
            break;
        }
        match input.read(&mut buffer[n..]) {
            Ok(0) => break,
            Ok(count) => n += count,
            Err(e) if e.kind() == ErrorKind::Interrupted => {}
            Err(_) => break,
        }
    }
    n
}

// Reads the program file of a TAP file and keeps its header.
fn load(file: &[u8], header: &mut [u8; header::HEADER_BYTES]) -> Result<Loaded, Refusal>
    ensures answer { outcome_of result ≡ mapped loaded_of (file_in file.now) }
    ensures header { header.new ≡ put_at header.old 0 (puts (mapped header_of (file_in file.now))) }
{
    if MOST_INPUT < file.len() {
        return Err(Reason::WrongSize.into());
    }
    let mut strip = [0u32; STRIP_ROOM];
    let mut bytes = [0u8; block::MOST_BYTES];
    let t = tap::read_tap(file, &mut strip)?;
    file::read_file(&strip[..t.count], 0, header, &mut bytes)
}

// ---- Text. Each function appends to it, and says how many bytes that needs at most. They differ, so that it has room is a clause of each.

// The listing, by what the file reader answered and the header that it put.
fn text_of(answer: Result<Loaded, Refusal>, header: &[u8]) -> Text
    ensures { result.bytes ≡ answer_text answer header.now }
{
    let mut text = Text::new();
    text.push_str("type start end bytes name\n");
    match answer {
        Err(r) => put_refusal(r, &mut text),
        Ok(l) => put_fields(l.fields, header::shown_name(header), &mut text),
    }
    text
}

// Not by `write!` of the refusal: its contract does not say that it succeeds where there is room. From `usize` to `u64` it is `as`: there is no From.
#[tactic(auto, using(std::proofs::Common::append_assoc), unfolding(crate::specs::Listing::refusal_line, lists::specs::Text::ascii))]
fn put_refusal(r: Refusal, text: &mut Text)
    requires { HasRoom text.old 71 }
    ensures { text.new.bytes ≡ text.old.bytes ++ refusal_line (number_of r.reason) r.block r.place }
{
    text.push_str("refused ");
    put_number(u64::from(u32::from(r.reason)), ' ', text);
    put_number(u64::from(r.block), ' ', text);
    put_number(r.place as u64, '\n', text);
}

fn put_fields(fields: Fields, name: &[u8], text: &mut Text)
    requires { HasRoom text.old (53 + length name.now) }
    ensures { text.new.bytes ≡ text.old.bytes ++ file_line fields (data_bytes fields) name.now }
{
    put_number(u64::from(fields.kind), ' ', text);
    put_address(fields.start, text);
    put_address(fields.end, text);
    put_number(data_bytes(fields), ' ', text);
    put_printed(name, text);
    text.push('\n');
}

// How many bytes the program has; none where the end is not above the start.
fn data_bytes(fields: Fields) -> u64
    ensures { result ≡ data_bytes fields }
{
    u64::from(fields.end.saturating_sub(fields.start))
}

// A number and a character after it.
fn put_number(n: u64, after: char, text: &mut Text)
    requires room { HasRoom text.old 21 }
    requires ascii { after < 128 }
    ensures text { text.new.bytes ≡ text.old.bytes ++ decimal n ++ after ∷ [] }
    ensures room { array_string_len text.new ≤ array_string_len text.old + 21 }
{
    let mut digits = Buffer::new();
    text.push_str(digits.format(n));
    text.push(after);
}

// An address and a space after it. Not by `write!` with `{:04X}`: its contract does not say that it succeeds where there is room.
#[tactic(auto, using(std::proofs::Common::append_assoc), unfolding(crate::specs::Listing::hexadecimal))]
fn put_address(address: u16, text: &mut Text)
    requires { HasRoom text.old 5 }
    ensures text { text.new.bytes ≡ text.old.bytes ++ field (hexadecimal address) }
    ensures room { array_string_len text.new ≡ array_string_len text.old + 5 }
{
    let n = u32::from(address);
    text.push(digit_of(n / 4096));
    text.push(digit_of(n / 256 % 16));
    text.push(digit_of(n / 16 % 16));
    text.push(digit_of(n % 16));
    text.push(' ');
}

// The character of a digit below 16.
#[tactic(auto, unfolding(crate::specs::Listing::digit))]
fn digit_of(d: u32) -> char
    requires { d < 16 }
    ensures value { result ≡ digit d }
    ensures ascii { result < 128 }
{
    char::from_digit(d, 16).unwrap().to_ascii_uppercase()
}

fn put_printed(name: &[u8], text: &mut Text)
    requires { HasRoom text.old (length name.now) }
    ensures text { text.new.bytes ≡ text.old.bytes ++ map printed name.now }
    ensures room { array_string_len text.new ≡ array_string_len text.old + length name.now }
{
    for &b in name {
        text.push(printed_as(b));
    }
}

// A full stop for a byte that does not print.
#[tactic(auto, unfolding(crate::specs::Listing::printed))]
fn printed_as(b: u8) -> char
    ensures value { result ≡ printed b }
    ensures ascii { result < 128 }
{
    match b {
        b' '..=b'~' => char::from(b),
        _ => '.',
    }
}
