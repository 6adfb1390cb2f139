// The pulses of a byte, put one part after the other. Its eight bits are put in quarters, from a table. Each function takes the buffer and a
// place: a struct of both would be no plainer, since each promise says by `sets` what is put where, and that all else stays. So the loops here
// count places in the output.
ghost use Rattle.std.specs.Prelude.{◌≡◌, ◌+◌, ◌<◌, ◌≤◌, [], ◌∷◌, length};
ghost use Rattle.std.proofs.lemmas.List.Edits.{sets};
ghost use Rattle.pulse.specs.Pulse.{pulses};
ghost use Rattle.byte.specs.Byte.{bits, coded, byte_pulses};
ghost use Rattle.byte.specs.private.Quarters.{quarter, quarters};

use super::{BITS, PAIR_PULSES};
use pulse::Class;

// A quarter of a byte's bits has two of them.
const QUARTERS: usize = 4;

// Of a quarter, how many values there are and how many pulses.
const QUARTER_VALUES: usize = 4;

const QUARTER_PULSES: usize = PAIR_PULSES * BITS / QUARTERS;

// Where the parity pair stands.
const PARITY_AT: usize = PAIR_PULSES * (1 + BITS);

const S: u16 = pulse::SHORT_CYCLES.0 as u16;

const M: u16 = pulse::MEDIUM_CYCLES.0 as u16;

// The pulses of two bits, by the number that these are.
#[derive(Clone, Copy)]
pub struct Quarters {
    rows: [[u16; QUARTER_PULSES]; QUARTER_VALUES],
    ghost known: { rows ≡ quarters },
}

impl Quarters {
    // Each call makes the table anew, so it is made before a loop.
    pub fn new() -> Quarters {
        Quarters {
            rows: [[S, M, S, M], [M, S, S, M], [S, M, M, S], [M, S, M, S]],
        }
    }

    // Puts one byte.
    pub fn put_byte(&self, out: &mut [u32], at: usize, b: u8)
        requires { at + 20 ≤ length out.old }
        ensures { out.new ≡ sets out.old at (byte_pulses b) }
    {
        put_pair(out, at, Class::Long, Class::Medium);
        self.put_bits(out, at + PAIR_PULSES, b);
        put_bit(out, at + PARITY_AT, super::parity_bit(b));
    }

    // Puts the eight bits of a byte.
    fn put_bits(&self, out: &mut [u32], at: usize, b: u8)
        requires { at + 16 ≤ length out.old }
        ensures { out.new ≡ sets out.old at (pulses (coded (bits 8 b))) }
    {
        let mut rest = usize::from(b);
        for i in 0..QUARTERS {
            self.put_quarter(out, at + QUARTER_PULSES * i, rest % QUARTER_VALUES);
            rest /= QUARTER_VALUES;
        }
    }

    // Puts two bits.
    fn put_quarter(&self, out: &mut [u32], at: usize, n: usize)
        requires { (n < 4) × (at + 4 ≤ length out.old) }
        ensures { out.new ≡ sets out.old at (quarter n) }
    {
        for (i, cycles) in self.rows[n].iter().enumerate() {
            out[at + i] = u32::from(*cycles);
        }
    }
}

fn put_pair(out: &mut [u32], at: usize, first: Class, second: Class)
    requires { at + 2 ≤ length out.old }
    ensures { out.new ≡ sets out.old at (pulses (first ∷ second ∷ [])) }
{
    let one = pulse::written_as(first);
    let two = pulse::written_as(second);
    out[at] = one.0;
    out[at + 1] = two.0;
}

fn put_bit(out: &mut [u32], at: usize, bit: u8)
    requires { at + 2 ≤ length out.old }
    ensures { out.new ≡ sets out.old at (pulses (coded (bit ∷ []))) }
{
    if bit == 0 {
        put_pair(out, at, Class::Short, Class::Medium);
    } else {
        put_pair(out, at, Class::Medium, Class::Short);
    }
}
