// Tests of a call in a session. Whether it meets a session that does not fit, which it answers with 2, is the one test that a public call makes before its
// inner call; the length of the card and sync's 1 and 9 are tests of the inner calls, and of the functions that stop inside a call.
#![tactic(auto)]

ghost use Rattle.std.specs.Prelude.{◌≡◌, ◌*◌, eqb, length};
ghost use Rattle.card.specs.Answers.{number_in};
ghost use Rattle.store.specs.Mount.{plan_number};
ghost use Rattle.store.specs.Inner.{fitting_plan, unfit, unfit_on};

use card::Refusal;
use session::{Opened, Session};
use session_fit::fits;

// Whether the card has the session's length, 512·S bytes.
pub fn sized(s: Opened, card: &[u8]) -> bool
    ensures { result ≡ eqb (length card.now) (512 * s.geo.s) }
{
    card.len() == 512 * (s.geo.s as usize)
}

// The tests of sync in an open session that fits: 1, 9
#[tactic(auto, unfolding(store::specs::Inner::fitting_plan, store::specs::Mount::plan_number, card::specs::Plan::guard, card::specs::Plan::ended))]
pub fn sync_tests(s: Opened, card: &[u8]) -> Result<(), Refusal>
    ensures { number_in result ≡ plan_number (fitting_plan s card.now) }
{
    if !sized(s, card) {
        return Err(Refusal::Shape);
    }
    if s.worn {
        return Err(Refusal::Worn);
    }
    Ok(())
}

// Whether the session is open and does not fit; a closed one is not judged.
#[tactic(auto, unfolding(store::specs::Inner::unfit))]
pub fn unfit(session: Session, work: &[u8]) -> bool
    ensures { result ≡ unfit session work.now }
{
    session.is_some_and(|s| !fits(s, work))
}

// The same for land, sync and unmount, which answer 1 before 2: a card that is not of 512·S bytes is not judged either.
#[tactic(auto, unfolding(store::specs::Inner::unfit_on))]
pub fn unfit_on(session: Session, card: &[u8], work: &[u8]) -> bool
    ensures { result ≡ unfit_on session card.now work.now }
{
    session.is_some_and(|s| sized(s, card) && !fits(s, work))
}
