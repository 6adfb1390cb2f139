// Reading a block straight from the deck, one pulse at a time. The reader knows n beforehand; its state is a few numbers, handed on by value.
// It keeps copy one in a lent working buffer, and no pulses.
//
//   place i of the block   bytes 2i and 2i + 1 of the working buffer
//   a good byte            its value, 0
//   a bad byte             0, its cause plus 1
//
// At payload and checksum places a good byte of copy two replaces a bad one.
#![tactic(auto)]

mod answers;
mod decode;
mod judge;
mod search;
mod state;
mod step;
mod work;

ghost use Rattle.std.specs.Prelude.{◌≡◌, [], ◌∷◌};
ghost use Rattle.pulse.specs.Pulse.{class_of, fixed, classes};
ghost use Rattle.deck.specs.Calls.{lent, begin_deck, take_run, take_end, said_by, saying_of};
ghost use Rattle.deck.specs.private.Ready.{turned_away};

use block::Extent;
use pulse::{Cycles, Thresholds};
use refusal::Refusal;
use state::Phase;

// The largest payload here, and how many pulses a deck takes. Numbers that a struct keeps are of 32 bits, 16 or 8, for C.
// Those of 32 go to usize by `as`, which has no From<u32>.
pub const MOST_BYTES: usize = 65534;

pub const MOST_PULSES: u32 = u32::MAX;

// The numbers of what a deck is doing, for C, of which state::Phase has the cases: looking for the start, in copy one, between the copies, in
// copy two; or it has answered.
pub const SEEKING: u8 = 0;

pub const IN_ONE: u8 = 1;

pub const BETWEEN: u8 = 2;

pub const IN_TWO: u8 = 3;

pub const ANSWERED: u8 = 4;

// The three structs are handed to C and back by value, and any numbers in them are taken: so a phase, an answer, a class and a cause are numbers
// here, and what is not there yet is one past the last. Inside, a phase is `state::Phase`.

// A frame of which not all twenty pulses are in: its bits so far, the class of its last pulse, and its first wrong pair, or 10.
#[repr(C)]
#[derive(Clone, Copy, Default)]
pub struct Frame {
    pub bits: u16,
    pub last: u8,
    pub wrong: u8,
}

// What copy two has shown so far: the first lost place, or n + 1; the first countdown place that fails, or 9; the XOR of the values; and the
// causes of the first lost place.
#[repr(C)]
#[derive(Clone, Copy, Default)]
pub struct Checks {
    pub lost: u32,
    pub failed: u8,
    pub sum: u8,
    pub one: u8,
    pub two: u8,
}

// The state. What is heard are pulses: of the sixteen short ones and $89 while it seeks, of a frame in a copy, and between the copies. The
// answer is 0, or the number of a refusal; `refused` is the number with which the last call was refused, or 0.
#[repr(C)]
#[derive(Clone, Copy, Default)]
pub struct Deck {
    pub n: u32,
    pub taken: u32,
    pub start: u32,
    pub place: u32,
    pub phase: u8,
    pub heard: u8,
    pub answer: u8,
    pub refused: u8,
    pub frame: Frame,
    pub checks: Checks,
}

// What the last call said: nothing yet, the answer, or that it was refused. An enum of its own, since it has three cases.
#[derive(Clone, Copy)]
pub enum Said {
    Nothing,
    Answer(Result<Extent, Refusal>),
    Refused(Refusal),
}

impl Deck {
    // A deck for a block of n payload bytes. It refuses a wrong n, and a working buffer or an output that is too short; then every later call
    // is refused likewise.
    #[tactic(auto, unfolding(crate::specs::Calls::begin_deck))]
    pub fn begin(n: usize, working: usize, room: usize) -> Deck
        ensures { result ≡ begin_deck n working room }
    {
        // No function for this and is_sound's test: n has another type there, and in `block::wrong_size` another end. A range is as plain as its name.
        if !(1..=MOST_BYTES).contains(&n) {
            return Deck::not_begun(state::WRONG_SIZE);
        }
        let n = n as u32;
        if !work::has_room(n, working, room) {
            return Deck::not_begun(state::NO_ROOM);
        }
        Phase::Seeking { matched: 0 }.deck(n, 0)
    }

    // Takes one pulse.
    pub fn pulse(mut self, pulse: u32, work: &mut [u8], out: &mut [u8]) -> Deck
        ensures { lent result work.new out.new ≡ take_run (lent self work.old out.old) (class_of fixed pulse ∷ []) }
    {
        if let Some(same) = self.turned_away(1, work.len(), out.len()) {
            return same;
        }
        self = self.feed(pulse::class_of(Thresholds::fixed(), Cycles(pulse)));
        if self.is_whole() {
            self = self.settle(self.frame.close(), work, out);
        }
        self
    }

    // Takes a run of pulses, which may be empty. It refuses, whole, a run with which they would be too many, and a working buffer or an output
    // that is too short.
    pub fn pulses(mut self, pulses: &[u32], work: &mut [u8], out: &mut [u8]) -> Deck
        ensures { lent result work.new out.new ≡ take_run (lent self work.old out.old) (classes fixed pulses.now) }
    {
        if let Some(same) = self.turned_away(pulses.len(), work.len(), out.len()) {
            return same;
        }
        self.refused = 0;
        let mut i: usize = 0;
        // A while, since a turn takes a whole frame or one pulse.
        while i < pulses.len() {
            // By its number, as in is_closed: one case alone is asked for.
            if self.phase == ANSWERED {
                return self;
            }
            if self.at_frame() & (byte::BYTE_PULSES <= pulses.len() - i) {
                self.taken += byte::BYTE_PULSES as u32;
                self = self.settle(byte::byte_at(Thresholds::fixed(), pulses, i), work, out);
                i += byte::BYTE_PULSES;
                continue;
            }
            self = self.feed(pulse::class_of(Thresholds::fixed(), Cycles(pulses[i])));
            i += 1;
            if self.is_whole() {
                self = self.settle(self.frame.close(), work, out);
            }
        }
        self
    }

    // Takes the end of the pulses.
    pub fn end(self, work: &mut [u8], out: &mut [u8]) -> Deck
        ensures { lent result work.new out.new ≡ take_end (lent self work.old out.old) }
    {
        if let Some(same) = self.turned_away(0, work.len(), out.len()) {
            return same;
        }
        self.finish()
    }

    // What the last call said.
    pub fn said(self) -> Said
        ensures { saying_of result ≡ said_by self }
    {
        answers::said(self)
    }

    // What a call with so many pulses hands back where it takes nothing: a closed deck as it is, or with the number of why the call is refused.
    #[tactic(auto, unfolding(crate::specs::private::Ready::turned_away))]
    fn turned_away(self, count: usize, working: usize, room: usize) -> Option<Deck>
        ensures { result ≡ turned_away self count working room }
    {
        if self.is_closed() {
            return Some(self);
        }
        let refused = if ((MOST_PULSES - self.taken) as usize) < count {
            state::WRONG_SIZE
        } else if !work::has_room(self.n, working, room) {
            state::NO_ROOM
        } else {
            return None;
        };
        Some(Deck { refused, ..self })
    }
}
