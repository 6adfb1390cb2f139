// The cases of document 01 that are run and compared: the largest payload, one byte more, a leader that is too short, how many short
// pulses a start needs before it; and its example of a program file, damaged and read back. A block's limits are those of `block`; all other figures
// are written out, since they are what is tested.
#![tactic(auto)]

ghost use Rattle.std.specs.Prelude.{◌+◌, ◌≤◌, length};

use block::Extent;
use file::Loaded;
use header::Fields;
use refusal::Refusal;
use std::io;
use std::io::Write;

const LEADER: usize = block::LEAST_LEADER;

// The pulses of a block with this leader: of one byte, and of 8,192.
const SMALL_STRIP: usize = 626;

const LARGE_STRIP: usize = 328266;

// The pulses of the program file with 16 bytes.
const FILE_STRIP: usize = 9492;

// Where the first payload byte stands in copy one of its header block, and in copy two of its data block.
const HEADER_BYTE: usize = LEADER + 20 * 9;

const DATA_BYTE: usize = 8266 + LEADER + 20 * 26 + 61 + 20 * 9;

fn main(rt: HostRuntime) -> io::Result<()> {
    println!(rt; "n = 8192")?;
    largest(&rt)?;
    println!(rt; "n = 8193")?;
    too_large(&rt)?;
    println!(rt; "K = 63")?;
    short_leader(&rt)?;
    println!(rt; "15 short pulses before $89")?;
    shorts_before(&rt, 15)?;
    println!(rt; "16 short pulses before $89")?;
    shorts_before(&rt, 16)?;
    println!(rt; "GAME, three pulses of a byte spoilt in each block")?;
    program_file(&rt)
}

// Writes the largest payload and reads it back.
fn largest(rt: &HostRuntime) -> io::Result<()> {
    let mut payload = [0u8; block::MOST_BYTES];
    number_bytes(&mut payload);
    let mut strip = [0u32; LARGE_STRIP];
    let mut out = [0u8; block::MOST_BYTES];
    say_put(rt, block::write_block(&payload, LEADER, &mut strip))?;
    say_block(
        rt,
        block::read_block(&strip, 0, block::MOST_BYTES, &mut out),
    )?;
    if payload == out {
        println!(rt; "the payload written")
    } else {
        println!(rt; "another payload")
    }
}

fn too_large(rt: &HostRuntime) -> io::Result<()> {
    let payload = [0u8; block::MOST_BYTES + 1];
    let mut strip = [0u32; LARGE_STRIP];
    say_put(rt, block::write_block(&payload, LEADER, &mut strip))
}

fn short_leader(rt: &HostRuntime) -> io::Result<()> {
    let payload = [0u8; 1];
    let mut strip = [0u32; SMALL_STRIP];
    say_put(rt, block::write_block(&payload, LEADER - 1, &mut strip))
}

// Reads a block of one byte from a strip whose leader was cut to this many pulses.
fn shorts_before(rt: &HostRuntime, shorts: usize) -> io::Result<()>
    requires { shorts ≤ 64 }
{
    let payload = [0x41u8; 1];
    let mut strip = [0u32; SMALL_STRIP];
    let mut out = [0u8; 1];
    // There is room for it.
    let _ = block::write_block(&payload, LEADER, &mut strip);
    let cut = LEADER - shorts;
    say_block(rt, block::read_block(&strip[cut..], 0, 1, &mut out))
}

// Writes the program of the example, spoils copy one's first payload byte in the header and copy two's in the data, and reads it back.
fn program_file(rt: &HostRuntime) -> io::Result<()> {
    let mut bytes = [0u8; 16];
    number_bytes(&mut bytes);
    let fields = Fields {
        kind: 1,
        start: 0x0801,
        end: 0x0811,
    };
    let mut strip = [0u32; FILE_STRIP];
    let mut header = [0u8; header::HEADER_BYTES];
    let mut out = [0u8; 16];
    say_put(
        rt,
        file::write_file(fields, b"GAME", &bytes, LEADER, LEADER, &mut strip),
    )?;
    spoil(&mut strip, HEADER_BYTE);
    spoil(&mut strip, DATA_BYTE);
    say_file(rt, file::read_file(&strip, 0, &mut header, &mut out))?;
    rt.stdout().write_all(header::shown_name(&header))?;
    println!(rt)?;
    if bytes == out {
        println!(rt; "the bytes written")
    } else {
        println!(rt; "other bytes")
    }
}

// Turns three pulses into noise.
fn spoil(strip: &mut [u32], at: usize)
    requires { at + 3 ≤ length strip.old }
{
    strip[at..at + 3].fill(0);
}

// From 0 to 250, and again from 0.
fn number_bytes(bytes: &mut [u8]) {
    for (i, byte) in bytes.iter_mut().enumerate() {
        *byte = (i % 251) as u8;
    }
}

fn say_put(rt: &HostRuntime, answer: Result<usize, Refusal>) -> io::Result<()> {
    match answer {
        Ok(n) => println!(rt; "pulses put: {n}"),
        Err(refusal) => println!(rt; "{refusal}"),
    }
}

fn say_block(rt: &HostRuntime, answer: Result<Extent, Refusal>) -> io::Result<()> {
    match answer {
        Ok(Extent { n, start, end }) => println!(rt; "n, start, end: {n} {start} {end}"),
        Err(refusal) => println!(rt; "{refusal}"),
    }
}

fn say_file(rt: &HostRuntime, answer: Result<Loaded, Refusal>) -> io::Result<()> {
    match answer {
        Ok(Loaded { fields, stop }) => {
            let Fields { kind, start, end } = fields;
            println!(rt; "type, start, end, end of the data block: {kind} {start} {end} {stop}")
        }
        Err(refusal) => println!(rt; "{refusal}"),
    }
}
