// The search for the start. The lead is the 36 pulses by which a start is known: sixteen short ones, then $89. The search keeps how many pulses
// of the lead end what was heard.
ghost use Rattle.std.specs.Prelude.{◌<◌, ◌≡◌};
ghost use Rattle.deck.specs.Lead.{seek};

use pulse::Class;

pub const LEAD_PULSES: u8 = LONG_AT + byte::BYTE_PULSES as u8;

// Where the lead has its long pulse: after the sixteen short ones.
const LONG_AT: u8 = start::SYNC_SHORTS as u8;

// Bit i tells whether pulse i of the lead is short, or medium.
const SHORTS: u64 = 0x6_5658_ffff;

const MEDIUMS: u64 = 0x9_a9a6_0000;

// Two bits for each pulse of $89: how many pulses of the lead, all short, end what was heard, where a short one comes in its stead.
const BACKS: u64 = 0xc1_88c1_8c14;

// One pulse more.
pub fn seek(matched: u8, class: Class) -> u8
    requires { matched < 36 }
    ensures { result ≡ seek matched class }
{
    match class {
        Class::Short if (SHORTS >> matched) % 2 == 1 => matched + 1,
        Class::Short if matched == LONG_AT => matched,
        Class::Short => ((BACKS >> (2 * (matched - LONG_AT))) % 4) as u8,
        Class::Medium if (MEDIUMS >> matched) % 2 == 1 => matched + 1,
        Class::Long if matched == LONG_AT => matched + 1,
        _ => 0,
    }
}
