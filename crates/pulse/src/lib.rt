// Pulses. A pulse is one full period, as a count of CPU cycles, and has one of four classes.
//
//   cycles     0 .. 199   200 .. 439   440 .. 607   608 .. 959   960 ..
//   class       noise       short        medium        long       noise
//   written as     -         360          520          688          -
#![tactic(auto)]

ghost use Rattle.std.specs.Prelude.{◌≡◌};
ghost use Rattle.pulse.specs.Pulse.{class_of, fixed, written_as, same};
ghost use Rattle.pulse.specs.Units.{byte_cycles, cycles_of, units_of};

#[derive(Clone, Copy)]
pub enum Class {
    Short,
    Medium,
    Long,
    Noise,
}

// A number of CPU cycles.
#[derive(Clone, Copy, PartialEq, PartialOrd)]
pub struct Cycles(pub u32);

// Where each class begins, and where noise begins again.
#[derive(Clone, Copy)]
pub struct Thresholds {
    pub short: Cycles,
    pub medium: Cycles,
    pub long: Cycles,
    pub noise: Cycles,
}

impl Thresholds {
    // The thresholds for a deck that runs at its proper speed.
    pub fn fixed() -> Thresholds
        ensures { result ≡ fixed }
    {
        Thresholds {
            short: Cycles(200),
            medium: Cycles(440),
            long: Cycles(608),
            noise: Cycles(960),
        }
    }
}

// The class of a pulse.
#[tactic(auto, unfolding(crate::specs::Pulse::class_of))]
pub fn class_of(t: Thresholds, pulse: Cycles) -> Class
    ensures { result ≡ class_of t pulse.0 }
{
    if pulse < t.short {
        Class::Noise
    } else if pulse < t.medium {
        Class::Short
    } else if pulse < t.long {
        Class::Medium
    } else if pulse < t.noise {
        Class::Long
    } else {
        Class::Noise
    }
}

// Whether a pulse is of one class. Each test runs without a branch, and asks for other thresholds: they differ by more than a constant.
pub fn is_short(t: Thresholds, pulse: Cycles) -> bool
    ensures { result ≡ same (class_of t pulse.0) Class.Short }
{
    (t.short <= pulse) & (pulse < t.medium)
}

pub fn is_medium(t: Thresholds, pulse: Cycles) -> bool
    ensures { result ≡ same (class_of t pulse.0) Class.Medium }
{
    (t.short <= pulse) & (t.medium <= pulse) & (pulse < t.long)
}

pub fn is_long(t: Thresholds, pulse: Cycles) -> bool
    ensures { result ≡ same (class_of t pulse.0) Class.Long }
{
    (t.short <= pulse) & (t.medium <= pulse) & (t.long <= pulse) & (pulse < t.noise)
}

pub const SHORT_CYCLES: Cycles = Cycles(360);

pub const MEDIUM_CYCLES: Cycles = Cycles(520);

pub const LONG_CYCLES: Cycles = Cycles(688);

// What a pulse of a class is written as. Noise is never written: it has 0 cycles, which are noise.
pub fn written_as(c: Class) -> Cycles
    ensures { result.0 ≡ written_as c }
{
    match c {
        Class::Short => SHORT_CYCLES,
        Class::Medium => MEDIUM_CYCLES,
        Class::Long => LONG_CYCLES,
        Class::Noise => Cycles(0),
    }
}

// A number of TAP units, of eight cycles each.
#[derive(Clone, Copy, PartialEq, PartialOrd)]
pub struct Units(pub u32);

const UNIT_CYCLES: u32 = 8;

// A number of units in cycles. There is none where it does not fit a pulse's 32 bits. Document 01 asks for a named conversion, so it is no TryFrom.
pub fn cycles_of(u: Units) -> Option<Cycles>
    ensures { result ≡ cycles_of u }
{
    let cycles = u.0.checked_mul(UNIT_CYCLES)?;
    Some(Cycles(cycles))
}

// The cycles of as many units as one byte counts. These always fit.
pub fn byte_cycles(units: u8) -> Cycles
    ensures { result.0 ≡ byte_cycles units }
{
    Cycles(u32::from(units) * UNIT_CYCLES)
}

// A number of cycles in units, by name too. There is none for one between two units.
pub fn units_of(c: Cycles) -> Option<Units>
    ensures { result ≡ units_of c }
{
    let cycles = c.0;
    // With `then_some` writing a TAP file takes a tenth more time.
    if cycles % UNIT_CYCLES == 0 {
        Some(Units(cycles / UNIT_CYCLES))
    } else {
        None
    }
}
