// Program files. A program file is a header block and then its data block, each with a leader of its own.
//
//   block 0: the header, 192 bytes      block 1: the data, end minus start bytes
#![tactic(auto)]

ghost use Rattle.std.specs.Prelude.{◌≡◌, false, length};
ghost use Rattle.refusal.specs.Outcome.{outcome_of};
ghost use Rattle.refusal.specs.Promise.{Written};
ghost use Rattle.pulse.specs.Pulse.{fixed, classes};
ghost use Rattle.block.specs.Block.{wrong_size};
ghost use Rattle.block.specs.Reading.{read_from};
ghost use Rattle.file.specs.File.{file, not_program, measure_data, write_blocks, write_file};
ghost use Rattle.file.specs.Reading.{read_data, read_file, FilePromise};

use header::Fields;
use refusal::{DATA_BLOCK, Reason, Refusal};

// The types that a program file has: a program, and one that is bound to its start address. A type is a number, since every call takes any.
const PROGRAM: u8 = 1;

const FIXED_PROGRAM: u8 = 3;

// What an accepted file answers: type and addresses, and the end of the data block.
#[derive(Clone, Copy)]
pub struct Loaded {
    pub fields: Fields,
    pub stop: usize,
}

// Writes a program file with these leaders before its header and its data, and answers the number of pulses put. It refuses a name
// that is too long, a type that is not 1 or 3, addresses that do not fit the bytes, a leader of a wrong size and an output that is too
// short.
pub fn write_file(
    fields: Fields,
    name: &[u8],
    bytes: &[u8],
    leader0: usize,
    leader1: usize,
    out: &mut [u32],
) -> Result<usize, Refusal>
    ensures { Written (write_file (length out.old) (file fields name.now bytes.now leader0 leader1)) out.old result out.new }
{
    let mut header = [0u8; header::HEADER_BYTES];
    header::pack_header(fields, name, &mut header)?;
    let n = measure_data(fields)?;
    if n != bytes.len() {
        return Err(Reason::WrongAddresses.into());
    }
    write_blocks(header, bytes, leader0, leader1, out)
}

// Reads the program file whose header is the first block at or after `from`: puts its header and its data, and answers type, addresses
// and the end of the data block. It refuses a header or a data block as `read_block` does, a type that is not 1 or 3, an end that is not
// above the start or too far above it, and an output that is too short.
pub fn read_file(
    strip: &[u32],
    from: usize,
    header: &mut [u8],
    bytes: &mut [u8],
) -> Result<Loaded, Refusal>
    ensures { FilePromise (read_file (classes fixed strip.now) (length header.old) (length bytes.old) from) header.old bytes.old result header.new bytes.new }
{
    let mut h = [0u8; header::HEADER_BYTES];
    let read = block::read_block(strip, from, header::HEADER_BYTES, &mut h)?;
    read_data(strip, read.end, h, header, bytes)
}

// How many bytes the data block of a program file has. It refuses a type that is not 1 or 3, and an end that is not above the start or too
// far above it.
#[tactic(auto, unfolding(crate::specs::File::measure_data))]
pub fn measure_data(fields: Fields) -> Result<usize, Refusal>
    ensures { outcome_of result ≡ measure_data fields }
{
    if not_program(fields.kind) {
        return Err(Reason::WrongType.into());
    }
    let start = usize::from(fields.start);
    let end = usize::from(fields.end);
    if (end <= start) | (start + block::MOST_BYTES < end) {
        return Err(Reason::WrongAddresses.into());
    }
    Ok(end - start)
}

// ---- Writing

// Writes the two blocks. The leaders stay apart, as C lends them: a struct for this one call would be no plainer.
fn write_blocks(
    header: [u8; header::HEADER_BYTES],
    bytes: &[u8],
    leader0: usize,
    leader1: usize,
    out: &mut [u32],
) -> Result<usize, Refusal>
    requires { wrong_size (length bytes.now) ≡ false }
    ensures { Written (write_blocks (length out.old) leader0 header leader1 bytes.now) out.old result out.new }
{
    let first = block::measure_block(header::HEADER_BYTES, leader0)?;
    let second = block::measure_block(bytes.len(), leader1).map_err(|r| r.in_block(DATA_BLOCK))?;
    let count = first + second;
    if out.len() < count {
        return Err(Reason::NoRoom.into());
    }
    // Both are measured and there is room for both, so neither is refused.
    let _ = block::write_block(&header, leader0, out);
    let _ = block::write_block(bytes, leader1, &mut out[first..]);
    Ok(count)
}

fn not_program(kind: u8) -> bool
    ensures { result ≡ not_program kind }
{
    !matches!(kind, PROGRAM | FIXED_PROGRAM)
}

// ---- Reading

// Reads the data block of a header that was read, from the header's end on. Nothing is put before both blocks are accepted.
fn read_data(
    strip: &[u32],
    from: usize,
    h: [u8; header::HEADER_BYTES],
    header: &mut [u8],
    bytes: &mut [u8],
) -> Result<Loaded, Refusal>
    ensures { FilePromise (read_data (read_from (classes fixed strip.now)) (length header.old) (length bytes.old) from h) header.old bytes.old result header.new bytes.new }
{
    let fields = header::unpack_header(&h)?;
    let n = measure_data(fields)?;
    if (header.len() < header::HEADER_BYTES) | (bytes.len() < n) {
        return Err(Reason::NoRoom.into());
    }
    let data = block::read_block(strip, from, n, bytes).map_err(|r| r.in_block(DATA_BLOCK))?;
    header[..header::HEADER_BYTES].copy_from_slice(&h);
    Ok(Loaded {
        fields,
        stop: data.end,
    })
}
