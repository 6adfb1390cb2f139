// The parts of a block, put one after the other. A buffer and a place go in, as in `byte/src/write.rt`.
ghost use Rattle.std.specs.Prelude.{◌+◌, ◌*◌, ◌≤◌, ◌<◌, ◌≡◌, length, replicate};
ghost use Rattle.std.proofs.lemmas.List.Edits.{sets};
ghost use Rattle.pulse.specs.declared.Class.TheVariants.{Short};
ghost use Rattle.pulse.specs.Pulse.{pulses};
ghost use Rattle.byte.specs.Byte.{bytes_pulses};
ghost use Rattle.start.specs.Copies.{copy_pulses};
ghost use Rattle.block.specs.Block.{checksum, copy_classes, trailer, block_length, block_pulses};

use super::COUNTDOWNS;
use pulse::Class;
use start::{COUNTDOWN_BYTES, EXTRA_BYTES, TRAILER_PULSES, TRAILER_SHORTS};

pub fn put_block(payload: &[u8], leader: usize, out: &mut [u32])
    requires { block_length leader (length payload.now) ≤ length out.old }
    ensures { out.new ≡ sets out.old 0 (block_pulses leader payload.now) }
{
    let copy = byte::BYTE_PULSES * (payload.len() + EXTRA_BYTES);
    let two = leader + copy + TRAILER_PULSES;
    let sum = checksum_of(payload);
    put_shorts(out, 0, leader);
    put_copy(out, leader, 0, payload, sum);
    put_trailer(out, leader + copy);
    put_copy(out, two, 1, payload, sum);
    put_trailer(out, two + copy);
}

fn checksum_of(payload: &[u8]) -> u8
    ensures { result ≡ checksum payload.now }
{
    payload.iter().fold(0, |sum, byte| sum ^ *byte)
}

fn put_shorts(out: &mut [u32], at: usize, count: usize)
    requires { at + count ≤ length out.old }
    ensures { out.new ≡ sets out.old at (pulses (replicate count Short)) }
{
    let short = pulse::written_as(Class::Short);
    out[at..at + count].fill(short.0);
}

// Puts copy one, which is copy 0 here, or copy two, which is copy 1: the index into the countdowns, as the definitions have it.
fn put_copy(out: &mut [u32], at: usize, copy: usize, payload: &[u8], sum: u8)
    requires small { (copy < 2) × (at + copy_pulses (length payload.now) ≤ length out.old) }
    requires summed { sum ≡ checksum payload.now }
    ensures { out.new ≡ sets out.old at (pulses (copy_classes copy payload.now)) }
{
    let countdown = COUNTDOWNS[copy];
    let values = at + byte::BYTE_PULSES * COUNTDOWN_BYTES;
    let last = values + byte::BYTE_PULSES * payload.len();
    put_bytes(&countdown, out, at);
    put_bytes(payload, out, values);
    put_bytes(&[sum], out, last);
}

fn put_bytes(values: &[u8], out: &mut [u32], at: usize)
    requires { at + 20 * length values.now ≤ length out.old }
    ensures { out.new ≡ sets out.old at (bytes_pulses values.now) }
{
    // The room is there, so nothing is refused.
    let _ = byte::write_bytes(values, &mut out[at..]);
}

fn put_trailer(out: &mut [u32], at: usize)
    requires { at + 61 ≤ length out.old }
    ensures { out.new ≡ sets out.old at (pulses trailer) }
{
    let long = pulse::written_as(Class::Long);
    out[at] = long.0;
    put_shorts(out, at + 1, TRAILER_SHORTS);
}
