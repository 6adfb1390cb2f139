// What a deck is doing, its numbers in each phase, and which states are sound.
ghost use Rattle.std.specs.Prelude.{◌≡◌};
ghost use Rattle.deck.specs.Frame.{fresh};
ghost use Rattle.deck.specs.Step.{InOne, InTwo};
ghost use Rattle.deck.specs.Calls.{deck_of, phase_of, is_sound, is_closed, not_begun};
ghost use Rattle.deck.specs.private.Ready.{doing};

use super::{ANSWERED, BETWEEN, Checks, Deck, Frame, IN_ONE, IN_TWO, SEEKING, search};

// The numbers of reasons that a Deck keeps for C, in `refused` before an answer and in `answer` from then on. They stand here beside
// `u32::from(reason)`, since a constant may call no function, and a match and is_sound ask for constants.

// The numbers of the refusals that a call may have before an answer.
pub const WRONG_SIZE: u8 = 1;

pub const NO_ROOM: u8 = 2;

// The numbers of an answer.
pub const ACCEPTED: u8 = 0;

pub const NO_START: u8 = 3;

pub const CUT_SHORT: u8 = 4;

pub const WRONG_COUNTDOWN: u8 = 5;

pub const LOST_BYTE: u8 = 6;

pub const WRONG_CHECKSUM: u8 = 7;

// What the countdown and the checksum add to the byte places of a copy.
pub const EXTRA: u32 = start::EXTRA_BYTES as u32;

// The pulses of a frame, and those between the copies.
pub const FRAME: u8 = byte::BYTE_PULSES as u8;

pub const GAP: u8 = start::TRAILER_PULSES as u8;

const MOST_BYTES: u32 = super::MOST_BYTES as u32;

// What a deck is doing, with the numbers that it has then. A Deck itself has numbers alone, for C, and those that its phase lacks are 0.
#[derive(Clone, Copy)]
pub enum Phase {
    Seeking {
        matched: u8,
    },
    InOne {
        start: u32,
        place: u32,
        heard: u8,
        frame: Frame,
    },
    Between {
        start: u32,
        heard: u8,
    },
    InTwo {
        start: u32,
        place: u32,
        heard: u8,
        frame: Frame,
        checks: Checks,
    },
    // The answer is a number here too: any may come from C, and is_sound asks whether it is one of an answer.
    Told {
        start: u32,
        answer: u8,
        checks: Checks,
    },
}

impl Phase {
    // At a byte place of copy one, and of copy two, with no pulse of its frame heard yet.
    pub fn one_at(start: u32, place: u32) -> Phase
        ensures { doing result ≡ InOne start place 0 fresh }
    {
        Phase::InOne {
            start,
            place,
            heard: 0,
            frame: Frame::fresh(),
        }
    }

    pub fn two_at(start: u32, place: u32, checks: Checks) -> Phase
        ensures { doing result ≡ InTwo start place 0 fresh checks }
    {
        Phase::InTwo {
            start,
            place,
            heard: 0,
            frame: Frame::fresh(),
            checks,
        }
    }

    // A deck in this phase.
    pub fn deck(self, n: u32, taken: u32) -> Deck
        ensures { result ≡ deck_of n taken (doing self) }
    {
        let blank = Deck {
            n,
            taken,
            ..Deck::default()
        };
        match self {
            Phase::Seeking { matched } => Deck {
                phase: SEEKING,
                heard: matched,
                ..blank
            },
            Phase::InOne {
                start,
                place,
                heard,
                frame,
            } => Deck {
                phase: IN_ONE,
                start,
                place,
                heard,
                frame,
                ..blank
            },
            Phase::Between { start, heard } => Deck {
                phase: BETWEEN,
                start,
                heard,
                ..blank
            },
            Phase::InTwo {
                start,
                place,
                heard,
                frame,
                checks,
            } => Deck {
                phase: IN_TWO,
                start,
                place,
                heard,
                frame,
                checks,
                ..blank
            },
            Phase::Told {
                start,
                answer,
                checks,
            } => Deck {
                phase: ANSWERED,
                start,
                answer,
                checks,
                ..blank
            },
        }
    }
}

impl Deck {
    // A deck that did not begin.
    pub(super) fn not_begun(refused: u8) -> Deck
        ensures { result ≡ not_begun refused }
    {
        Deck {
            refused,
            ..Phase::Seeking { matched: 0 }.deck(0, 0)
        }
    }

    #[tactic(auto, unfolding(crate::specs::Calls::phase_of))]
    pub(super) fn phase(self) -> Phase
        ensures { doing result ≡ phase_of self }
    {
        let start = self.start;
        let place = self.place;
        let heard = self.heard;
        let frame = self.frame;
        let checks = self.checks;
        match self.phase {
            SEEKING => Phase::Seeking { matched: heard },
            IN_ONE => Phase::InOne {
                start,
                place,
                heard,
                frame,
            },
            BETWEEN => Phase::Between { start, heard },
            IN_TWO => Phase::InTwo {
                start,
                place,
                heard,
                frame,
                checks,
            },
            _ => Phase::Told {
                start,
                answer: self.answer,
                checks,
            },
        }
    }

    // Whether no call changes the deck: it has answered, or it is none that a beginning and pulses can give. The phase by its number, since one
    // case alone is asked for.
    #[tactic(auto, unfolding(crate::specs::Calls::is_closed))]
    pub(super) fn is_closed(self) -> bool
        ensures { result ≡ is_closed self }
    {
        !self.is_sound() | (self.phase == ANSWERED)
    }

    // Whether it is one of those. The phase is tested by its number first, since `Phase` has no case for a number that is none.
    #[tactic(auto, unfolding(crate::specs::Calls::is_sound))]
    pub(super) fn is_sound(self) -> bool
        ensures { result ≡ is_sound self }
    {
        let n = self.n;
        let refused = self.refused;
        if !(1..=MOST_BYTES).contains(&n) | (NO_ROOM < refused) | (ANSWERED < self.phase) {
            return false;
        }
        match self.phase() {
            Phase::Seeking { matched } => (matched < search::LEAD_PULSES)
                & (u32::from(matched) <= self.taken),
            Phase::InOne {
                place,
                heard,
                frame,
                ..
            }
            | Phase::InTwo {
                place,
                heard,
                frame,
                ..
            } => { (place < n + EXTRA) & (heard < FRAME) & (frame.wrong <= byte::EVEN_ONES) }
            Phase::Between { heard, .. } => heard < GAP,
            Phase::Told { answer, .. } => {
                (refused == 0)
                    & ((answer == ACCEPTED) | ((NO_START <= answer) & (answer <= WRONG_CHECKSUM)))
            }
        }
    }
}
