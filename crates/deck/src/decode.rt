// A frame, pulse by pulse.
ghost use Rattle.std.specs.Prelude.{◌≡◌, cond};
ghost use Rattle.pulse.specs.Pulse.{code};
ghost use Rattle.byte.specs.Byte.{pair_of, is_sound};
ghost use Rattle.deck.specs.Frame.{class_named, fresh, earlier, with_bit, take_pulse, closed};

use super::Frame;
use byte::ByteRead;
use pulse::Class;

// The numbers of the classes: a Frame keeps one, and C gets it.
const SHORT: u8 = 0;

const MEDIUM: u8 = 1;

const LONG: u8 = 2;

const NOISE: u8 = 3;

// The place value of the parity bit among a frame's nine bits.
const PARITY: u16 = 1 << byte::BITS;

impl Frame {
    // No pulse is in yet.
    pub(super) fn fresh() -> Frame
        ensures { result ≡ fresh }
    {
        Frame {
            wrong: byte::EVEN_ONES,
            ..Frame::default()
        }
    }

    // One pulse more, after those that were heard before. The second of a pair makes it whole.
    pub(super) fn take_pulse(self, heard: u8, class: Class) -> Frame
        ensures { result ≡ take_pulse heard self class }
    {
        let first = self.last;
        let last = code(class);
        if heard % 2 == 0 {
            return Frame { last, ..self };
        }
        Frame {
            bits: with_bit(self.bits, (first == MEDIUM) & (last == SHORT)),
            last,
            wrong: earlier(self.wrong, heard / 2, !is_sound(heard / 2, first, last)),
        }
    }

    // The byte that twenty pulses are.
    pub(super) fn close(self) -> ByteRead
        ensures { result ≡ closed self }
    {
        let value = (self.bits % PARITY) as u8;
        let odd = (u8::count_ones(value) + u32::from(self.bits / PARITY)) % 2 == 1;
        if (self.wrong == byte::EVEN_ONES) & odd {
            return ByteRead::Good(value);
        }
        ByteRead::Bad(self.wrong)
    }
}

// A bit comes in from the top, and the lowest falls out.
#[tactic(auto, unfolding(crate::specs::Frame::with_bit))]
fn with_bit(bits: u16, one: bool) -> u16
    ensures { result ≡ with_bit bits (cond one 1 0) }
{
    if one { bits / 2 + PARITY } else { bits / 2 }
}

// Whether a pair of classes is what pair i has to be: the marker, or a bit. By the numbers that a Frame keeps, where `byte` tests cycles.
fn is_sound(i: u8, first: u8, last: u8) -> bool
    ensures { result ≡ is_sound i (pair_of (class_named first) (class_named last)) }
{
    if i == 0 {
        return (first == LONG) & (last == MEDIUM);
    }
    ((first == SHORT) & (last == MEDIUM)) | ((first == MEDIUM) & (last == SHORT))
}

// The earlier of the first place that failed and place i, if that fails.
#[tactic(auto, unfolding(crate::specs::Frame::earlier))]
pub fn earlier(first: u8, i: u8, fails: bool) -> u8
    ensures { result ≡ earlier first i fails }
{
    if fails & (i < first) { i } else { first }
}

// A function and no impl of From, since neither type is of this crate.
fn code(class: Class) -> u8
    ensures { result ≡ code class }
{
    match class {
        Class::Short => SHORT,
        Class::Medium => MEDIUM,
        Class::Long => LONG,
        Class::Noise => NOISE,
    }
}
