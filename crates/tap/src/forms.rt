// The forms of durations in the data: what each stands for, and how many bytes a duration takes.
//
//   u, not 0        u units of eight cycles
//   0               in version 0: 2,048 cycles
//   0, a, b, c      in version 1, the long form: as many cycles as the three bytes count, low first
ghost use Rattle.std.specs.Prelude.{◌+◌, ◌≤◌, ◌<◌, ◌≡◌, length, Some};
ghost use Rattle.tap.specs.Tap.{form_of};
ghost use Rattle.tap.specs.private.Forms.{lone_cycles, long_cycles, byte_units, bytes_of};

use pulse::{Cycles, Units};

// What a zero byte stands for in version 0.
const ZERO_CYCLES: Cycles = Cycles(2048);

// The most that one byte counts.
const MOST_BYTE_UNITS: Units = Units(255);

// A long form is a zero byte and three bytes of count.
pub const LONG_BYTES: usize = 4;

// The most that three bytes count.
const MOST_LONG_CYCLES: Cycles = Cycles(0xff_ffff);

// What a byte stands for that is a form by itself.
pub fn lone_cycles(b: u8) -> Cycles
    ensures { result.0 ≡ lone_cycles b }
{
    if b == 0 {
        ZERO_CYCLES
    } else {
        pulse::byte_cycles(b)
    }
}

// What the long form at a place stands for. By `from_le_bytes`, which takes four bytes, each of the three would be named, and a 0 put beside them: no
// plainer.
pub fn long_cycles(bytes: &[u8], i: usize) -> Cycles
    requires { i + 4 ≤ length bytes.now }
    ensures { result.0 ≡ long_cycles bytes.now i }
{
    Cycles(lists::from_low(&bytes[i + 1..i + LONG_BYTES]))
}

// The units of a duration that one byte counts; 0 where it has no such form. An Option is slower here, by a quarter of a tape's writing: the
// compiler then makes no one mask of the tests.
pub fn byte_units(duration: Cycles) -> Units
    ensures value { result.0 ≡ byte_units duration.0 }
    ensures fits { result.0 < 256 }
{
    let Some(units) = pulse::units_of(duration) else {
        return Units(0);
    };
    if units <= MOST_BYTE_UNITS {
        return units;
    }
    Units(0)
}

// What a duration is written as: one byte, which counts units or is the zero byte of version 0, or the long form.
#[derive(Clone, Copy)]
pub enum Form {
    Byte(u8),
    Long(Cycles),
}

impl Form {
    // How many bytes it has. The writer adds these up, in 32 bits.
    pub fn width(self) -> u32
        ensures { result ≡ length (bytes_of (Some self)) }
    {
        match self {
            Form::Byte(_) => 1,
            Form::Long(_) => LONG_BYTES as u32,
        }
    }
}

// How many bytes a duration is written in; 0 where it has no form.
pub fn width_of(version: u8, duration: Cycles) -> u32
    ensures { result ≡ length (form_of version duration.0) }
{
    form_of(version, duration).map_or(0, Form::width)
}

// The form of a duration, where it has one.
pub fn form_of(version: u8, duration: Cycles) -> Option<Form>
    ensures { bytes_of result ≡ form_of version duration.0 }
{
    let units = byte_units(duration);
    if units.0 != 0 {
        return Some(Form::Byte(units.0 as u8));
    }
    if version == 0 {
        return (duration == ZERO_CYCLES).then_some(Form::Byte(0));
    }
    (duration <= MOST_LONG_CYCLES).then_some(Form::Long(duration))
}
