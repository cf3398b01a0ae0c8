// Looking at a session: a file of its present view, one line of its list, and its free and waiting sectors.
//
// A call is two functions. The inner one, named `_fitting`, makes every test but 2 and requires instead that an open session fits; the public
// one is that test and then the inner one.
#![tactic(auto)]

ghost use Rattle.std.specs.Prelude.{◌≡◌, true, MatchResult};
ghost use Rattle.card.specs.Answers.{counted, lined_of};
ghost use Rattle.store.specs.Given.{room_of};
ghost use Rattle.store.specs.Look.{get, line, free};
ghost use Rattle.store.specs.Inner.{FitOf, unfit};

use card::{Line, Refusal};
use card_files::{get_in, line_in};
use counts::Image;
use session::{Session, present_view};
use session_unfit::unfit;
use store::Figures;
use store_figures::figures_in;

// The one test of a public call that its inner call does not make: 2
#[tactic(auto, unfolding(store::specs::Inner::unfit))]
fn judged(session: Session, work: &[u8]) -> Result<(), Refusal>
    ensures { MatchResult result (λ _. FitOf session work.now) (λ r. (r ≡ Refusal.Unsound) × (unfit session work.now ≡ true)) }
{
    if unfit(session, work) {
        return Err(Refusal::Unsound);
    }
    Ok(())
}

// Free in a session that fits: 4, then both figures.
#[tactic(auto, unfolding(store::specs::Look::free, store::specs::Look::no_figures))]
pub fn free_fitting(session: Session, work: &[u8]) -> Result<Figures, Refusal>
    requires { FitOf session work.now }
    ensures { room_of result ≡ free session work.now }
{
    let s = session.ok_or(Refusal::Closed)?;
    let present = present_view(s);
    let cut = counts::as_is(s.geo);
    let image = Image {
        geo: s.geo,
        bytes: work,
    };
    Ok(figures_in(image, present, cut))
}

// "free 4, 2": the sectors clear in both views, and those that the next sync releases.
#[tactic(auto, unfolding(store::specs::Inner::unfit, store::specs::Look::free, store::specs::Look::no_figures, card::specs::Plan::guard, card::specs::Plan::ended))]
pub fn free(session: Session, work: &[u8]) -> Result<Figures, Refusal>
    ensures { room_of result ≡ free session work.now }
{
    judged(session, work)?;
    free_fitting(session, work)
}

// The line at a position in a session that fits: 4, then the line where there is one.
#[tactic(auto, unfolding(store::specs::Look::line))]
pub fn line_fitting(session: Session, work: &[u8], i: u32) -> Result<Option<Line>, Refusal>
    requires { FitOf session work.now }
    ensures { lined_of result ≡ line session work.now i }
{
    let s = session.ok_or(Refusal::Closed)?;
    let present = present_view(s);
    let image = Image {
        geo: s.geo,
        bytes: work,
    };
    Ok(line_in(image, present, i))
}

// "4, 2": the line at a position, where there is one.
#[tactic(auto, unfolding(store::specs::Inner::unfit, store::specs::Look::line, card::specs::Files::line_end, card::specs::Plan::guard, card::specs::Plan::ended))]
pub fn line(session: Session, work: &[u8], i: u32) -> Result<Option<Line>, Refusal>
    ensures { lined_of result ≡ line session work.now i }
{
    judged(session, work).and_then(|()| line_fitting(session, work, i))
}

// Get in a session that fits: every test of get but 2, in its order
#[tactic(auto, unfolding(store::specs::Look::get))]
pub fn get_fitting(
    session: Session,
    work: &[u8],
    name: &[u8],
    out: &mut [u8],
) -> Result<u32, Refusal>
    requires { FitOf session work.now }
    ensures { (counted result ≡ (get session work.now name.now out.old).answer) × (out.new ≡ (get session work.now name.now out.old).out) }
{
    let s = session.ok_or(Refusal::Closed)?;
    let present = present_view(s);
    let image = Image {
        geo: s.geo,
        bytes: work,
    };
    get_in(image, present, name, out)
}

// "get 4, 2, 5, 6, 10"
#[tactic(auto, unfolding(store::specs::Inner::unfit, store::specs::Look::get, card::specs::Files::get_end, card::specs::Plan::guard, card::specs::Plan::ended))]
pub fn get(session: Session, work: &[u8], name: &[u8], out: &mut [u8]) -> Result<u32, Refusal>
    ensures { (counted result ≡ (get session work.now name.now out.old).answer) × (out.new ≡ (get session work.now name.now out.old).out) }
{
    judged(session, work)?;
    get_fitting(session, work, name, out)
}
