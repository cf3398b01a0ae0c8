// The store for a host: functions on numbers and lent bytes, each answering a number of the table, and where a call counts, number and count.
//
// A slice crosses as a pointer and a length, an array `[u8; n]` as one pointer, a number as itself. No two lent buffers may overlap: a host can lend
// one buffer twice, and what is promised leaves that out.
//
// A session crosses as 24 bytes, six words with the least byte first: state (0 closed, 1 open, 2 open and worn), S, T, D, c and t. The closed
// session is 24 zeros. Any 24 bytes are taken: with state 0 they are the closed session whatever follows, and with a state above 2 an open session
// that never fits. What reading a card gives crosses as 16 bytes, the words C, N, the file count and the clear bits; what free gives as 8, the words
// free and waiting.
//
// For a bench that cuts the power inside a call there are store_mount_steps, store_sync_steps and store_unmount_steps: the call's tests, then its writes
// as far as place k, and nothing else; no other buffer changes, and the card is as it would be if the call stopped there. Mount has two places: sector
// 0, and a barrier, behind which everything written has landed. Sync's are sector 0, the S - T - 1 sectors past the table in rising order, a barrier, the
// table sector, a barrier; a sector that does not differ is not written. Unmount's are sync's, and then sector 0. Past the last place nothing happens.
#![tactic(auto)]

ghost use Rattle.std.specs.Prelude.{◌≡◌};
ghost use Rattle.card.specs.Answers.{counted, uncounted};
ghost use Rattle.card.specs.Make.{make};
ghost use Rattle.card.specs.Reading.{read, read_get};
ghost use Rattle.store.specs.Edit.{put, put_at, remove};
ghost use Rattle.store.specs.Look.{get, free};
ghost use Rattle.store.specs.Mount.{mount};
ghost use Rattle.store.specs.Sync.{land, sync, unmount};
ghost use Rattle.host_crossing.specs.Crossing.{geo_with, decoded, reported, roomed, IsMounted, IsKept, IsKeptNumber};
ghost use Rattle.host_crossing.specs.FirstSteps.{mount_first, sync_first, unmount_first};

use card::{Answer, Refusal, number};
use card_fresh::make;
use card_read::{read, read_get};
use counts::Geo;
use host_crossing::{close, encoded, give_figures, keep_synced, report_bytes, session_at};
use sectors::Sector;
use session::Session;
use session_unfit::{sized, sync_tests, unfit_on};
use store_card::{land, mount, mount_tests, sync, unmount};
use store_edit::{put, put_at, remove};
use store_look::{free, get};
use store_mounting::mount_steps;
use store_syncing::{sync_steps, unmount_steps};

// "make 1"
#[tactic(auto, using(card::proofs::AnswerLaws::uncounted_number))]
pub fn store_make(s: u32, t: u32, d: u32, card: &mut [u8]) -> u32
    ensures { (result ≡ (make (geo_with s t d) card.old).answer.number) × (card.new ≡ (make (geo_with s t d) card.old).image) }
{
    number(make(Geo { s, t, d }, card))
}

// Reading a card: on a refusal the output stays as lent.
#[tactic(auto, unfolding(host_crossing::specs::Crossing::reported))]
pub fn store_read(card: &[u8], out: &mut [u8; 16]) -> u32
    ensures { (result ≡ (read card.now).number) × (out.new ≡ reported (read card.now) out.old) }
{
    let r = read(card);
    if let Ok(contents) = r {
        *out = report_bytes(contents);
    }
    number(r)
}

// Reading's get: "1, 2, 5, 6, 10", over the files that a card shows.
pub fn store_read_get(card: &[u8], name: &[u8], out: &mut [u8]) -> Answer
    ensures { (result ≡ (read_get card.now name.now out.old).answer) × (out.new ≡ (read_get card.now name.now out.old).out) }
{
    Answer::from(read_get(card, name, out))
}

// "mount 1, 2, 3"; a refused mount gives the closed session.
#[tactic(auto, using(store::proofs::GivenLaws::mounted_number, store::proofs::GivenLaws::mounted_session))]
pub fn store_mount(card: &mut [u8], work: &mut [u8], session: &mut [u8; 24]) -> u32
    ensures { IsMounted result session.new card.new work.new (mount card.old work.old) }
{
    let r = mount(card, work);
    *session = encoded(r.ok());
    number(r)
}

// "put 4, 2, 9, 5, 7, 8"
#[tactic(auto, using(card::proofs::AnswerLaws::uncounted_number))]
pub fn store_put(session: &[u8; 24], work: &mut [u8], name: &[u8], content: &[u8]) -> u32
    ensures { (result ≡ (put (decoded session.now) work.old name.now content.now).answer.number) × (work.new ≡ (put (decoded session.now) work.old name.now content.now).image) }
{
    number(put(session_at(session), work, name, content))
}

// "remove 4, 2, 9, 5, 6"
#[tactic(auto, using(card::proofs::AnswerLaws::uncounted_number))]
pub fn store_remove(session: &[u8; 24], work: &mut [u8], name: &[u8]) -> u32
    ensures { (result ≡ (remove (decoded session.now) work.old name.now).answer.number) × (work.new ≡ (remove (decoded session.now) work.old name.now).image) }
{
    number(remove(session_at(session), work, name))
}

// "get 4, 2, 5, 6, 10": the file's bytes fill the first of the output and are counted; the rest stays.
pub fn store_get(session: &[u8; 24], work: &[u8], name: &[u8], out: &mut [u8]) -> Answer
    ensures { (result ≡ (get (decoded session.now) work.now name.now out.old).answer) × (out.new ≡ (get (decoded session.now) work.now name.now out.old).out) }
{
    Answer::from(get(session_at(session), work, name, out))
}

// Put with a goal sector: "4, 2, 9, 5", 11, "7, 8"
#[tactic(auto, using(card::proofs::AnswerLaws::uncounted_number))]
pub fn store_put_at(
    session: &[u8; 24],
    work: &mut [u8],
    name: &[u8],
    content: &[u8],
    goal: u32,
) -> u32
    ensures { (result ≡ (put_at (decoded session.now) work.old name.now content.now goal).answer.number) × (work.new ≡ (put_at (decoded session.now) work.old name.now content.now goal).image) }
{
    number(put_at(session_at(session), work, name, content, Sector(goal)))
}

// "free 4, 2": the words free and waiting; on a refusal the output stays as lent.
pub fn store_free(session: &[u8; 24], work: &[u8], out: &mut [u8; 8]) -> u32
    ensures { (result ≡ (free (decoded session.now) work.now).number) × (out.new ≡ roomed (free (decoded session.now) work.now) out.old) }
{
    give_figures(free(session_at(session), work), out)
}

// "sync 4, 1, 2, 9", with the number of sectors written; on a refusal the session's bytes stay as lent.
#[tactic(auto, unfolding(host_crossing::specs::Crossing::kept))]
pub fn store_sync_count(session: &mut [u8; 24], card: &mut [u8], work: &mut [u8]) -> Answer
    ensures { IsKept result session.new card.new work.new session.old (sync (decoded session.old) card.old work.old) }
{
    keep_synced(sync(session_at(session), card, work), session)
}

// The same call, its number alone.
pub fn store_sync(session: &mut [u8; 24], card: &mut [u8], work: &mut [u8]) -> u32
    ensures { IsKeptNumber result session.new card.new work.new session.old (sync (decoded session.old) card.old work.old) }
{
    store_sync_count(session, card, work).number
}

// "unmount 4, 1, 2", with the number of sectors its sync wrote; with 0 the session's bytes are the closed session, on a refusal as lent.
#[tactic(auto, unfolding(host_crossing::specs::Crossing::kept))]
pub fn store_unmount(session: &mut [u8; 24], card: &mut [u8], work: &mut [u8]) -> Answer
    ensures { IsKept result session.new card.new work.new session.old (unmount (decoded session.old) card.old work.old) }
{
    close(unmount(session_at(session), card, work), session)
}

// "land 4, 1, 2, 11"
#[tactic(auto, using(card::proofs::AnswerLaws::uncounted_number))]
pub fn store_land(session: &[u8; 24], card: &mut [u8], work: &[u8], sector: u32) -> u32
    ensures { (result ≡ (land (decoded session.now) card.old work.now sector).answer.number) × (card.new ≡ (land (decoded session.now) card.old work.now sector).image) }
{
    number(land(session_at(session), card, work, Sector(sector)))
}

// ---- the first steps of a call

// "mount 1, 2, 3", then its first k steps.
#[tactic(auto, unfolding(host_crossing::specs::FirstSteps::mount_first, host_crossing::specs::FirstSteps::first_of, store::specs::Mount::mount_plan, store::specs::Mount::plan_number, card::specs::Plan::guard, card::specs::Plan::ended))]
fn mount_first(card: &mut [u8], work: &[u8], k: u32) -> Result<(), Refusal>
    ensures { (uncounted result ≡ (mount_first card.old work.now k).answer) × (card.new ≡ (mount_first card.old work.now k).image) }
{
    mount_tests(card, work)?;
    mount_steps(card, k);
    Ok(())
}

// The same for a host; no session, and the working image is only measured.
#[tactic(auto, using(card::proofs::AnswerLaws::uncounted_number))]
pub fn store_mount_steps(card: &mut [u8], work: &[u8], k: u32) -> u32
    ensures { (result ≡ (mount_first card.old work.now k).answer.number) × (card.new ≡ (mount_first card.old work.now k).image) }
{
    number(mount_first(card, work, k))
}

// "sync 4, 1, 2, 9", then its steps at its first k places, with the number of sectors written there.
#[tactic(auto, unfolding(host_crossing::specs::FirstSteps::sync_first, host_crossing::specs::FirstSteps::first_of, store::specs::Inner::unfit_on, store::specs::Inner::fitting_plan, store::specs::Sync::both_plan, store::specs::Mount::plan_number, card::specs::Plan::guard, card::specs::Plan::ended))]
fn sync_first(session: Session, card: &mut [u8], work: &[u8], k: u32) -> Result<u32, Refusal>
    ensures { (counted result ≡ (sync_first session card.old work.now k).answer) × (card.new ≡ (sync_first session card.old work.now k).image) }
{
    if unfit_on(session, card, work) {
        return Err(Refusal::Unsound);
    }
    let s = session.ok_or(Refusal::Closed)?;
    sync_tests(s, card)?;
    Ok(sync_steps(s, card, work, k))
}

// The same in the session that the bytes hold.
pub fn store_sync_steps(session: &[u8; 24], card: &mut [u8], work: &[u8], k: u32) -> Answer
    ensures { (result ≡ (sync_first (decoded session.now) card.old work.now k).answer) × (card.new ≡ (sync_first (decoded session.now) card.old work.now k).image) }
{
    Answer::from(sync_first(session_at(session), card, work, k))
}

// "unmount 4, 1, 2", then its steps at its first k places, with the number of sectors that its sync writes there.
#[tactic(auto, unfolding(host_crossing::specs::FirstSteps::unmount_first, host_crossing::specs::FirstSteps::first_of, store::specs::Inner::unfit_on, store::specs::Sync::both_plan, card::specs::Plan::guard, card::specs::Plan::ended))]
fn unmount_first(session: Session, card: &mut [u8], work: &[u8], k: u32) -> Result<u32, Refusal>
    ensures { (counted result ≡ (unmount_first session card.old work.now k).answer) × (card.new ≡ (unmount_first session card.old work.now k).image) }
{
    if unfit_on(session, card, work) {
        return Err(Refusal::Unsound);
    }
    let s = session.ok_or(Refusal::Closed)?;
    if !sized(s, card) {
        return Err(Refusal::Shape);
    }
    Ok(unmount_steps(s, card, work, k))
}

// The same in the session that the bytes hold.
pub fn store_unmount_steps(session: &[u8; 24], card: &mut [u8], work: &[u8], k: u32) -> Answer
    ensures { (result ≡ (unmount_first (decoded session.now) card.old work.now k).answer) × (card.new ≡ (unmount_first (decoded session.now) card.old work.now k).image) }
{
    Answer::from(unmount_first(session_at(session), card, work, k))
}
