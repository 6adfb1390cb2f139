// Refusals. A call that refuses its input tells the reason, the block and the place; it alters nothing in a lent buffer.
#![tactic(auto)]

ghost use Rattle.std.specs.Prelude.{◌≡◌};
ghost use Rattle.refusal.specs.Refusal.{number_of, causes_of, or_none, refusal_at, in_block};

use std::fmt;

// Why a lost byte is bad, in copy one and in copy two: the first of its pairs that is wrong, 0 for the marker to 9 for the parity bit, or 10 where
// none is wrong and the number of ones is even: the numbers that C gets.
#[derive(Clone, Copy)]
pub struct Causes {
    pub one: u8,
    pub two: u8,
}

// The reasons, in the order of their numbers. A lost byte has its causes, and no other reason has any.
#[derive(Clone, Copy)]
pub enum Reason {
    WrongSize,
    NoRoom,
    NoStart,
    CutShort,
    WrongCountdown,
    LostByte(Causes),
    WrongChecksum,
    WrongType,
    WrongAddresses,
    WrongTapHeader,
    WrongTapVersion,
    CutLongForm,
    NoTapForm,
    WrongLeader,
}

// The number that a reason is known by.
impl From<Reason> for u32 {
    ghost from_gives = { λ reason number. number ≡ number_of reason };

    fn from(reason: Reason) -> u32 {
        match reason {
            Reason::WrongSize => 1,
            Reason::NoRoom => 2,
            Reason::NoStart => 3,
            Reason::CutShort => 4,
            Reason::WrongCountdown => 5,
            Reason::LostByte(_) => 6,
            Reason::WrongChecksum => 7,
            Reason::WrongType => 8,
            Reason::WrongAddresses => 9,
            Reason::WrongTapHeader => 10,
            Reason::WrongTapVersion => 11,
            Reason::CutLongForm => 12,
            Reason::NoTapForm => 13,
            Reason::WrongLeader => 14,
        }
    }
}

impl Reason {
    // The causes of a lost byte; both are 0 where the reason has none, as the interface for C has them.
    pub fn causes(self) -> Causes
        ensures { result ≡ or_none (causes_of self) }
    {
        match self {
            Reason::LostByte(causes) => causes,
            _ => Causes { one: 0, two: 0 },
        }
    }
}

// The blocks that a refusal names, by their numbers, which C gets: a header or a lone block, and a program file's data block.
pub const HEADER_BLOCK: u32 = 0;

pub const DATA_BLOCK: u32 = 1;

// The place is 0 where the reason names none, as C gets it.
#[derive(Clone, Copy)]
pub struct Refusal {
    pub reason: Reason,
    pub block: u32,
    pub place: usize,
}

impl Refusal {
    // A refusal that names block 0.
    pub fn at(reason: Reason, place: usize) -> Refusal
        ensures { result ≡ refusal_at reason place }
    {
        Refusal {
            reason,
            block: HEADER_BLOCK,
            place,
        }
    }

    // The same refusal, of another block.
    pub fn in_block(self, block: u32) -> Refusal
        ensures { result ≡ in_block block self }
    {
        Refusal { block, ..self }
    }
}

// A reason by itself names block 0 and place 0.
impl From<Reason> for Refusal {
    ghost from_gives = { λ reason refusal. refusal ≡ refusal_at reason 0 };

    fn from(reason: Reason) -> Refusal {
        Refusal::at(reason, 0)
    }
}

// As the programs print it: the number, the block and the place.
impl fmt::Display for Refusal {
    ghost use Rattle.std.specs.Prelude.{Some};
    ghost use Rattle.refusal.specs.Shown.{shown};

    ghost output = { λ refusal. Some (shown refusal) };

    fn fmt<W: fmt::Write>(&self, f: &mut fmt::Formatter<W>) -> fmt::Result {
        let number = u32::from(self.reason);
        let block = self.block;
        let place = self.place;
        write!(f, "refused {number} {block} {place}")
    }
}
