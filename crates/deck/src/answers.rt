// What a call says.
ghost use Rattle.std.specs.Prelude.{◌≡◌, cond, eqb};
ghost use Rattle.refusal.specs.Outcome.{outcome_of};
ghost use Rattle.deck.specs.Calls.{outcome_by, said_by, saying_of};

use super::{Checks, Deck, Said, state};
use block::Extent;
use refusal::{Causes, Reason, Refusal};
use state::Phase;

pub fn said(deck: Deck) -> Said
    ensures { saying_of result ≡ said_by deck }
{
    if !deck.is_sound() | (deck.refused != 0) {
        return Said::Refused(reason_of(deck.refused).into());
    }
    let Phase::Told {
        start,
        answer,
        checks,
    } = deck.phase()
    else {
        return Said::Nothing;
    };
    Said::Answer(answer_in(deck.n, start, answer, checks))
}

// Why a call was refused. A state that is not sound was refused too. No TryFrom, since any number stands for a reason here.
fn reason_of(refused: u8) -> Reason
    ensures { result ≡ cond (eqb refused 2) Reason.NoRoom Reason.WrongSize }
{
    match refused {
        state::NO_ROOM => Reason::NoRoom,
        _ => Reason::WrongSize,
    }
}

// The answer by its number.
fn answer_in(n: u32, start: u32, answer: u8, checks: Checks) -> Result<Extent, Refusal>
    ensures { outcome_of result ≡ outcome_by n start answer checks }
{
    let n = n as usize;
    let start = start as usize;
    match answer {
        state::ACCEPTED => Ok(Extent {
            n,
            start,
            end: start + 2 * byte::BYTE_PULSES * (n + start::EXTRA_BYTES) + start::TRAILER_PULSES,
        }),
        state::NO_START => Err(Reason::NoStart.into()),
        state::CUT_SHORT => Err(Refusal::at(Reason::CutShort, start)),
        state::WRONG_COUNTDOWN => Err(Refusal::at(
            Reason::WrongCountdown,
            usize::from(checks.failed),
        )),
        state::LOST_BYTE => {
            let causes = Causes {
                one: checks.one,
                two: checks.two,
            };
            Err(Refusal::at(Reason::LostByte(causes), checks.lost as usize))
        }
        _ => Err(Refusal::at(Reason::WrongChecksum, n)),
    }
}
