// The calls that write to the card: mount, land, sync and unmount, each its tests in the order of the table, then its steps.
//
// Land, sync and unmount are two functions each. The inner one, named `_fitting`, makes every test but 2 and requires instead that an open session
// fits; the public one is that test and then the inner one. 1 comes before 2: a card of another length is not judged, and the inner call answers it.
#![tactic(auto)]

ghost use Rattle.std.specs.Prelude.{◌≡◌, true, ltb};
ghost use Rattle.sectors.specs.Sectors.{sec};
ghost use Rattle.counts.specs.Geometry.{g_n, geo_of, count_of};
ghost use Rattle.card.specs.Answers.{number_in, uncounted};
ghost use Rattle.card.specs.Sound.{shape_ok};
ghost use Rattle.store.specs.Given.{mounted_of, synced_of, unmounted_of};
ghost use Rattle.store.specs.Mount.{IsEnded, plan_number, mount_plan, mount};
ghost use Rattle.store.specs.Sync.{land, sync, unmount};
ghost use Rattle.store.specs.Inner.{FitOn};

use card::Refusal;
use card_sound::{shape_ok, sound};
use sectors::{Sector, copy_sector};
use session::{Opened, Session};
use session_unfit::{sized, sync_tests, unfit_on};
use store::Synced;
use store_mounting::mount_in;
use store_syncing::{sync_in, unmount_in};

// Whether the table has a word left for a session: C is below N.
fn has_count(card: &[u8]) -> bool
    requires { shape_ok card.now ≡ true }
    ensures { result ≡ ltb (count_of (sec card.now)) (g_n (geo_of (sec card.now))) }
{
    words::word_at(card, 0) < counts::crash_counts(counts::geo_of(card))
}

// The tests of mount: 1, 2, 3
#[tactic(auto, unfolding(store::specs::Mount::mount_plan, store::specs::Mount::plan_number, card::specs::Plan::guard, card::specs::Plan::ended))]
pub fn mount_tests(card: &[u8], work: &[u8]) -> Result<(), Refusal>
    ensures { number_in result ≡ plan_number (mount_plan card.now work.now) }
{
    if !shape_ok(card) || work.len() != card.len() {
        return Err(Refusal::Shape);
    }
    if !sound(card) {
        return Err(Refusal::Unsound);
    }
    if !has_count(card) {
        return Err(Refusal::CountsUsed);
    }
    Ok(())
}

// "mount 1, 2, 3"
#[tactic(auto, unfolding(store::specs::Mount::mount, store::specs::Mount::mount_plan, store::specs::Mount::mount_done, store::specs::Mount::plan_number, card::specs::Plan::guard, card::specs::Plan::ended))]
pub fn mount(card: &mut [u8], work: &mut [u8]) -> Result<Opened, Refusal>
    ensures { IsEnded (mounted_of result) card.new work.new (mount card.old work.old) }
{
    mount_tests(card, work)?;
    Ok(mount_in(card, work))
}

// Land in a session that fits: 4, 1, 11
#[tactic(auto, unfolding(store::specs::Sync::land, store::specs::Sync::both_plan, card::specs::Plan::guard, card::specs::Plan::ended))]
pub fn land_fitting(
    session: Session,
    card: &mut [u8],
    work: &[u8],
    i: Sector,
) -> Result<(), Refusal>
    requires { FitOn session card.old work.now }
    ensures { (uncounted result ≡ (land session card.old work.now i.0).answer) × (card.new ≡ (land session card.old work.now i.0).image) }
{
    let s = session.ok_or(Refusal::Closed)?;
    if !sized(s, card) {
        return Err(Refusal::Shape);
    }
    if s.geo.s <= i.0 {
        return Err(Refusal::NoSector);
    }
    copy_sector(card, work, i);
    Ok(())
}

// "land 4, 1, 2, 11"
#[tactic(auto, unfolding(store::specs::Inner::unfit_on, store::specs::Sync::land, store::specs::Sync::both_plan, card::specs::Plan::guard, card::specs::Plan::ended))]
pub fn land(session: Session, card: &mut [u8], work: &[u8], i: Sector) -> Result<(), Refusal>
    ensures { (uncounted result ≡ (land session card.old work.now i.0).answer) × (card.new ≡ (land session card.old work.now i.0).image) }
{
    if unfit_on(session, card, work) {
        return Err(Refusal::Unsound);
    }
    land_fitting(session, card, work, i)
}

// Sync in a session that fits: 4, 1, 9
#[tactic(auto, unfolding(store::specs::Sync::sync, store::specs::Sync::sync_done, store::specs::Sync::both_plan, store::specs::Inner::fitting_plan, store::specs::Mount::plan_number, card::specs::Plan::guard, card::specs::Plan::ended))]
pub fn sync_fitting(session: Session, card: &mut [u8], work: &mut [u8]) -> Result<Synced, Refusal>
    requires { FitOn session card.old work.old }
    ensures { IsEnded (synced_of session result) card.new work.new (sync session card.old work.old) }
{
    let s = session.ok_or(Refusal::Closed)?;
    sync_tests(s, card)?;
    Ok(sync_in(s, card, work))
}

// "sync 4, 1, 2, 9", with the number of sectors written
#[tactic(auto, unfolding(store::specs::Inner::unfit_on, store::specs::Sync::sync, store::specs::Sync::both_plan, card::specs::Plan::guard, card::specs::Plan::ended))]
pub fn sync(session: Session, card: &mut [u8], work: &mut [u8]) -> Result<Synced, Refusal>
    ensures { IsEnded (synced_of session result) card.new work.new (sync session card.old work.old) }
{
    if unfit_on(session, card, work) {
        return Err(Refusal::Unsound);
    }
    sync_fitting(session, card, work)
}

// Unmount of a session that fits: 4, 1
#[tactic(auto, unfolding(store::specs::Sync::unmount, store::specs::Sync::unmount_done, store::specs::Sync::both_plan, card::specs::Plan::guard, card::specs::Plan::ended))]
pub fn unmount_fitting(session: Session, card: &mut [u8], work: &mut [u8]) -> Result<u32, Refusal>
    requires { FitOn session card.old work.old }
    ensures { IsEnded (unmounted_of session result) card.new work.new (unmount session card.old work.old) }
{
    let s = session.ok_or(Refusal::Closed)?;
    if !sized(s, card) {
        return Err(Refusal::Shape);
    }
    Ok(unmount_in(s, card, work))
}

// "unmount 4, 1, 2", with the number of sectors its sync wrote
#[tactic(auto, unfolding(store::specs::Inner::unfit_on, store::specs::Sync::unmount, store::specs::Sync::both_plan, card::specs::Plan::guard, card::specs::Plan::ended))]
pub fn unmount(session: Session, card: &mut [u8], work: &mut [u8]) -> Result<u32, Refusal>
    ensures { IsEnded (unmounted_of session result) card.new work.new (unmount session card.old work.old) }
{
    if unfit_on(session, card, work) {
        return Err(Refusal::Unsound);
    }
    unmount_fitting(session, card, work)
}
