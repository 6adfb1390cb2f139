// What `make bench` times beside the calls for C: loops over bytes, with thresholds that only the caller knows and with the fixed ones, and
// the block reader in one program with them. So byte reading has several callers here.
#![tactic(auto)]

ghost use Rattle.std.specs.Prelude.{◌≡◌, length};
ghost use Rattle.pulse.specs.Pulse.{fixed, classes};
ghost use Rattle.block.specs.Reading.{read_block};
ghost use Rattle.bench.specs.Bench.{thresholds_of, tally_of, CountPromise};

use pulse::{Cycles, Thresholds};

// What a loop over bytes answers: how many are good, and the XOR of their values.
#[repr(C)]
#[derive(Clone, Copy)]
pub struct BenchTally {
    pub good: usize,
    pub xor: u8,
}

// The bytes of a strip that stand at 0, 20, 40 and so on, with thresholds in any order. Fewer than twenty pulses at the end are left out.
#[unsafe(no_mangle)]
pub extern "C" fn bench_read_bytes(
    pulses: &[u32],
    short: u32,
    medium: u32,
    long: u32,
    noise: u32,
) -> BenchTally
    ensures { result ≡ tally_of (classes (thresholds_of short medium long noise) pulses.now) }
{
    let t = Thresholds {
        short: Cycles(short),
        medium: Cycles(medium),
        long: Cycles(long),
        noise: Cycles(noise),
    };
    tally(t, pulses)
}

// The same with the fixed thresholds.
#[unsafe(no_mangle)]
pub extern "C" fn bench_read_fixed(pulses: &[u32]) -> BenchTally
    ensures { result ≡ tally_of (classes fixed pulses.now) }
{
    tally(Thresholds::fixed(), pulses)
}

// The block reader. It answers n, or 0 where it refuses.
#[unsafe(no_mangle)]
pub extern "C" fn bench_read_block(pulses: &[u32], from: usize, n: usize, out: &mut [u8]) -> usize
    ensures { CountPromise (read_block (classes fixed pulses.now) (length out.old) from n) out.old result out.new }
{
    block::read_block(pulses, from, n, out).map_or(0, |extent| extent.n)
}

fn tally(t: Thresholds, pulses: &[u32]) -> BenchTally
    ensures { result ≡ tally_of (classes t pulses.now) }
{
    let mut good: usize = 0;
    let mut xor: u8 = 0;
    for frame in pulses.chunks_exact(byte::BYTE_PULSES) {
        if let Some(v) = byte::read_frame(t, frame) {
            good += 1;
            xor ^= v;
        }
    }
    BenchTally { good, xor }
}
