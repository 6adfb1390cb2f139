// Copy two against copy one: rules 3 to 5, place by place.
ghost use Rattle.std.specs.Prelude.{◌<◌, ◌≤◌, ◌≡◌};
ghost use Rattle.byte.specs.Byte.{is_good};
ghost use Rattle.block.specs.Looking.{place_read};
ghost use Rattle.deck.specs.Judge.{no_checks, check_countdown, check_place, answer_by};

use super::{Checks, decode, state};
use block::PlaceRead;
use byte::ByteRead;
use refusal::Causes;

impl Checks {
    // Nothing has failed yet.
    pub(super) fn none(n: u32) -> Checks
        requires { n ≤ 65534 }
        ensures { result ≡ no_checks n }
    {
        Checks {
            lost: n + 1,
            failed: start::COUNTDOWN_BYTES as u8,
            ..Checks::default()
        }
    }

    // Rule 3, for countdown place i.
    pub(super) fn check_countdown(self, i: u8, one: ByteRead, two: ByteRead) -> Checks
        requires { i < 9 }
        ensures { result ≡ check_countdown i one two self }
    {
        let counted = is_good(start::FIRST_OF_ONE - i, one) | is_good(start::FIRST_OF_TWO - i, two);
        Checks {
            failed: decode::earlier(self.failed, i, !counted),
            ..self
        }
    }

    // What place i, after the countdown, adds: a value to the sum, or the first lost place.
    pub(super) fn check_value(self, n: u32, i: u32, read: PlaceRead) -> Checks
        ensures { result ≡ check_place n i (place_read read) self }
    {
        match read {
            PlaceRead::One(value) | PlaceRead::Two(value) if i < n => Checks {
                sum: self.sum ^ value,
                ..self
            },
            PlaceRead::Neither(causes) if i < self.lost => Checks {
                lost: i,
                one: causes.one,
                two: causes.two,
                ..self
            },
            _ => self,
        }
    }

    // The number of the answer after the last place, whose value is the checksum. A number and no Result, since a deck keeps it for C.
    #[tactic(auto, unfolding(crate::specs::Judge::answer_by))]
    pub(super) fn answer(self, n: u32, checksum: u8) -> u8
        ensures { result ≡ answer_by n checksum self }
    {
        if self.failed < start::COUNTDOWN_BYTES as u8 {
            return state::WRONG_COUNTDOWN;
        }
        if self.lost <= n {
            return state::LOST_BYTE;
        }
        if self.sum == checksum {
            state::ACCEPTED
        } else {
            state::WRONG_CHECKSUM
        }
    }
}

fn is_good(value: u8, read: ByteRead) -> bool
    ensures { result ≡ is_good value read }
{
    matches!(read, ByteRead::Good(v) if v == value)
}
