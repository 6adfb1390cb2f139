// One pulse, in each phase.
ghost use Rattle.std.specs.Prelude.{ℕ, List, suc, ◌+◌, ◌*◌, ◌<◌, ◌≤◌, ◌≡◌, false, length};
ghost use Rattle.block.specs.Looking.{place_read};
ghost use Rattle.deck.specs.Work.{cause_byte};
ghost use Rattle.deck.specs.Judge.{mended, filled};
ghost use Rattle.deck.specs.Step.{standing, placed};
ghost use Rattle.deck.specs.Calls.{deck_of, phase_of, is_closed, lent, lent_of, ended_in};
ghost use Rattle.deck.specs.private.Ready.{Roomy, Settles, doing, fed_in, whole_in, judged_here, settled, is_at_frame};

use super::{Checks, Deck, Frame, IN_ONE, IN_TWO, judge, search, state, work};
use block::PlaceRead;
use byte::ByteRead;
use pulse::Class;
use state::Phase;

const COUNTDOWN: u32 = start::COUNTDOWN_BYTES as u32;

impl Deck {
    // A pulse more is heard. With it the lead, the frame or the gap may be whole. As a call of its own it makes single pulses 8 % slower.
    #[inline(always)]
    pub(super) fn feed(self, class: Class) -> Deck
        requires { (is_closed self ≡ false) × (self.taken < 4294967295) }
        ensures { result ≡ deck_of self.n (suc self.taken) (fed_in (phase_of self) class) }
    {
        let fed = match self.phase() {
            Phase::Seeking { matched } => Phase::Seeking {
                matched: search::seek(matched, class),
            },
            Phase::InOne {
                start,
                place,
                heard,
                frame,
            } => Phase::InOne {
                start,
                place,
                heard: heard + 1,
                frame: frame.take_pulse(heard, class),
            },
            Phase::Between { start, heard } => Phase::Between {
                start,
                heard: heard + 1,
            },
            Phase::InTwo {
                start,
                place,
                heard,
                frame,
                checks,
            } => Phase::InTwo {
                start,
                place,
                heard: heard + 1,
                frame: frame.take_pulse(heard, class),
                checks,
            },
            Phase::Told { .. } => unreachable!(),
        };
        fed.deck(self.n, self.taken + 1)
    }

    // Whether it is whole.
    pub(super) fn is_whole(self) -> bool
        ensures { result ≡ whole_in (phase_of self) }
    {
        match self.phase() {
            Phase::Seeking { matched } => matched == search::LEAD_PULSES,
            Phase::InOne { heard, .. } | Phase::InTwo { heard, .. } => heard == state::FRAME,
            Phase::Between { heard, .. } => heard == state::GAP,
            Phase::Told { .. } => false,
        }
    }

    // What is whole is settled: the start, copy one's byte, the gap, or copy two's byte.
    pub(super) fn settle(self, read: ByteRead, work: &mut [u8], out: &mut [u8]) -> Deck
        requires { Settles self read (length work.old) (length out.old) }
        ensures { lent result work.new out.new ≡ lent_of self.n (settled self.n (standing self.taken (phase_of self) work.old out.old) read) }
    {
        let n = self.n;
        let next = match self.phase() {
            Phase::Seeking { .. } => {
                work::put(work, 0, ByteRead::Good(start::FIRST_OF_ONE));
                Phase::one_at(self.taken - u32::from(state::FRAME), 1)
            }
            Phase::InOne { start, place, .. } => BytePlace { n, start, place }.put(read, work),
            Phase::Between { start, .. } => Phase::two_at(start, 0, Checks::none(n)),
            Phase::InTwo {
                start,
                place,
                checks,
                ..
            } => BytePlace { n, start, place }.judge(read, checks, work, out),
            Phase::Told { .. } => unreachable!(),
        };
        next.deck(n, self.taken)
    }

    // Whether the next pulse is the first of a frame. By the numbers, since a run asks it at each turn.
    #[tactic(auto, unfolding(crate::specs::private::Ready::is_at_frame))]
    pub(super) fn at_frame(self) -> bool
        ensures { result ≡ is_at_frame self }
    {
        ((self.phase == IN_ONE) | (self.phase == IN_TWO))
            & (self.heard == 0)
            & (self.frame.bits == 0)
            & (self.frame.wrong == byte::EVEN_ONES)
    }

    // The end of the pulses.
    pub(super) fn finish(self) -> Deck
        ensures { result ≡ deck_of self.n self.taken (ended_in (phase_of self)) }
    {
        let checks = Checks::default();
        let ended = match self.phase() {
            Phase::Seeking { .. } => Phase::Told {
                start: 0,
                answer: state::NO_START,
                checks,
            },
            Phase::InOne { start, .. }
            | Phase::Between { start, .. }
            | Phase::InTwo { start, .. } => {
                Phase::Told {
                    start,
                    answer: state::CUT_SHORT,
                    checks,
                }
            }
            told => told,
        };
        ended.deck(self.n, self.taken)
    }
}

// A byte place of a copy, in a block of n payload bytes, with the block's start.
#[derive(Clone, Copy)]
struct BytePlace {
    n: u32,
    start: u32,
    place: u32,
    ghost inside: { (n ≤ 65534) × (place < n + 10) },
}

impl BytePlace {
    // It is read in copy one.
    fn put(self, read: ByteRead, work: &mut [u8]) -> Phase
        requires { (2 * (self.n + 10) ≤ length work.old) × (cause_byte read < 256) }
        ensures { (k : ℕ) (out : List ℕ) → standing k (doing result) work.new out ≡ placed self.n k self.start self.place read work.old out }
    {
        work::put(work, self.place as usize, read);
        if self.place + 1 < self.n + state::EXTRA {
            return Phase::one_at(self.start, self.place + 1);
        }
        Phase::Between {
            start: self.start,
            heard: 0,
        }
    }

    // It is read in copy two.
    fn judge(self, two: ByteRead, checks: Checks, work: &mut [u8], out: &mut [u8]) -> Phase
        requires { Roomy self.n (length work.old) (length out.old) }
        ensures { (k : ℕ) → standing k (doing result) work.new out.new ≡ judged_here self.n k self.start self.place two checks work.old out.old }
    {
        let BytePlace { n, start, place } = self;
        let one = work::get(work, place as usize);
        if place < COUNTDOWN {
            return Phase::two_at(
                start,
                place + 1,
                checks.check_countdown(place as u8, one, two),
            );
        }
        let read = PlaceRead::of(one, two);
        let checks = checks.check_value(n, place - COUNTDOWN, read);
        mend(work, place as usize, read);
        if place - COUNTDOWN < n {
            return Phase::two_at(start, place + 1, checks);
        }
        let answer = checks.answer(n, read.value());
        fill_accepted(n, answer, work, out);
        Phase::Told {
            start,
            answer,
            checks,
        }
    }
}

// The output is filled where the block is accepted.
fn fill_accepted(n: u32, answer: u8, work: &[u8], out: &mut [u8])
    requires { Roomy n (length work.now) (length out.old) }
    ensures { out.new ≡ filled n answer work.now out.old }
{
    if answer == state::ACCEPTED {
        work::fill(out, work, n as usize);
    }
}

// A good byte of copy two replaces a bad one.
fn mend(work: &mut [u8], place: usize, read: PlaceRead)
    requires { 2 * place + 1 < length work.old }
    ensures { work.new ≡ mended work.old place (place_read read) }
{
    if let PlaceRead::Two(value) = read {
        work::put(work, place, ByteRead::Good(value));
    }
}
