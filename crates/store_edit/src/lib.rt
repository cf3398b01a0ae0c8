// Put and remove: a call's tests in the order of the table, then the change.
//
// A call is two functions. The inner one, named `_fitting`, makes every test but 2 and requires instead that an open session fits; the public
// one is that test and then the inner one.
#![tactic(auto)]

ghost use Rattle.std.specs.Prelude.{◌≡◌};
ghost use Rattle.card.specs.Answers.{uncounted};
ghost use Rattle.store.specs.Edit.{put_at, put, remove};
ghost use Rattle.store.specs.Inner.{FitOf};

use card::Refusal;
use counts::Image;
use directory_search::find_name;
use entries_names::good_name;
use sectors::Sector;
use session::{Session, present_view};
use session_unfit::unfit;
use store_change::{put_in, remove_in};
use store_find::{put_place, run_in, sectors_of};

// Put with a goal in a session that fits: every test of put_at but 2, in its order
#[tactic(auto, unfolding(store::specs::Edit::put_at, store::specs::Edit::put_plan, card::specs::Plan::guard, card::specs::Plan::need, card::specs::Plan::ended))]
pub fn put_at_fitting(
    session: Session,
    work: &mut [u8],
    name: &[u8],
    content: &[u8],
    goal: Sector,
) -> Result<(), Refusal>
    requires { FitOf session work.old }
    ensures { (uncounted result ≡ (put_at session work.old name.now content.now goal.0).answer) × (work.new ≡ (put_at session work.old name.now content.now goal.0).image) }
{
    let s = session.ok_or(Refusal::Closed)?;
    if s.worn {
        return Err(Refusal::Worn);
    }
    if !good_name(name) {
        return Err(Refusal::BadName);
    }
    if s.geo.s <= goal.0 {
        return Err(Refusal::NoSector);
    }
    let j = put_place(s, work, name).ok_or(Refusal::NoEntry)?;
    let a = run_in(s, work, sectors_of(content), goal).ok_or(Refusal::NoRoom)?;
    put_in(s, work, name, content, j, a);
    Ok(())
}

// Put with a goal: "4, 2, 9, 5", "11 for a goal of S or more, after 5 and before 7", "7, 8"
#[tactic(auto, unfolding(store::specs::Inner::unfit, store::specs::Edit::put_at, store::specs::Edit::put_plan, card::specs::Plan::guard, card::specs::Plan::ended))]
pub fn put_at(
    session: Session,
    work: &mut [u8],
    name: &[u8],
    content: &[u8],
    goal: Sector,
) -> Result<(), Refusal>
    ensures { (uncounted result ≡ (put_at session work.old name.now content.now goal.0).answer) × (work.new ≡ (put_at session work.old name.now content.now goal.0).image) }
{
    if unfit(session, work) {
        return Err(Refusal::Unsound);
    }
    put_at_fitting(session, work, name, content, goal)
}

// Put without a goal in a session that fits
#[tactic(auto, unfolding(store::specs::Edit::put))]
pub fn put_fitting(
    session: Session,
    work: &mut [u8],
    name: &[u8],
    content: &[u8],
) -> Result<(), Refusal>
    requires { FitOf session work.old }
    ensures { (uncounted result ≡ (put session work.old name.now content.now).answer) × (work.new ≡ (put session work.old name.now content.now).image) }
{
    put_at_fitting(session, work, name, content, Sector(0))
}

// "Goal 0 is today's rule, and calls without a goal keep it": put 4, 2, 9, 5, 7, 8
#[tactic(auto, unfolding(store::specs::Edit::put))]
pub fn put(session: Session, work: &mut [u8], name: &[u8], content: &[u8]) -> Result<(), Refusal>
    ensures { (uncounted result ≡ (put session work.old name.now content.now).answer) × (work.new ≡ (put session work.old name.now content.now).image) }
{
    put_at(session, work, name, content, Sector(0))
}

// Remove in a session that fits: every test of remove but 2, in its order
#[tactic(auto, unfolding(store::specs::Edit::remove, store::specs::Edit::remove_plan, session::specs::Views::present_table, card::specs::Plan::guard, card::specs::Plan::need, card::specs::Plan::ended))]
pub fn remove_fitting(session: Session, work: &mut [u8], name: &[u8]) -> Result<(), Refusal>
    requires { FitOf session work.old }
    ensures { (uncounted result ≡ (remove session work.old name.now).answer) × (work.new ≡ (remove session work.old name.now).image) }
{
    let s = session.ok_or(Refusal::Closed)?;
    if s.worn {
        return Err(Refusal::Worn);
    } else if !good_name(name) {
        return Err(Refusal::BadName);
    }
    let present = present_view(s);
    let image = Image {
        geo: s.geo,
        bytes: work,
    };
    let j = find_name(image, present, present, name).ok_or(Refusal::NoFile)?;
    remove_in(s, work, name, j);
    Ok(())
}

// "remove 4, 2, 9, 5, 6"
#[tactic(auto, unfolding(store::specs::Inner::unfit, store::specs::Edit::remove, store::specs::Edit::remove_plan, card::specs::Plan::guard, card::specs::Plan::ended))]
pub fn remove(session: Session, work: &mut [u8], name: &[u8]) -> Result<(), Refusal>
    ensures { (uncounted result ≡ (remove session work.old name.now).answer) × (work.new ≡ (remove session work.old name.now).image) }
{
    if unfit(session, work) {
        return Err(Refusal::Unsound);
    }
    remove_fitting(session, work, name)
}
