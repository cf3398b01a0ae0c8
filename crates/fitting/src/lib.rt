// The store for a module that answers for its session: the functions of crates host and lists without the test of the fit.
//
// A caller must know what each function requires: that an open session fits the working image it is lent. In a history it always does
// (`always-fits`, promises_crash/FitHistory): every session starts with our mount, only the newest is used, and nobody else touches the images. A closed session
// is taken, and answered 4. Each function then answers as the one of those crates with the same signature, byte for byte: its `ensures` is the same.
//
// Each is beside its twin in host or lists, and no generic over both: C links the two by name, and they ask different things.
//
// Slices, arrays and numbers cross as in crate host, a session as the same 24 bytes; mount, make and reading are those crates'.
#![tactic(auto)]

ghost use Rattle.std.specs.Prelude.{◌≡◌};
ghost use Rattle.store.specs.Edit.{put, put_at, remove};
ghost use Rattle.store.specs.Inner.{FitOf};
ghost use Rattle.store.specs.Look.{get, list, free};
ghost use Rattle.store.specs.Sync.{land, sync, unmount};
ghost use Rattle.host_crossing.specs.Crossing.{decoded, roomed, IsKept, IsKeptNumber};

use card::{Answer, Line, number};
use host_crossing::{close, give_figures, keep_synced, session_at};
use sectors::Sector;
use store_card::{land_fitting, sync_fitting, unmount_fitting};
use store_edit::{put_at_fitting, put_fitting, remove_fitting};
use store_listing::list_fitting;
use store_look::{free_fitting, get_fitting};

// put: 4, 9, 5, 7, 8
#[tactic(auto, using(card::proofs::AnswerLaws::uncounted_number))]
pub fn fitting_put(session: &[u8; 24], work: &mut [u8], name: &[u8], content: &[u8]) -> u32
    requires { FitOf (decoded session.now) work.old }
    ensures { (result ≡ (put (decoded session.now) work.old name.now content.now).answer.number) × (work.new ≡ (put (decoded session.now) work.old name.now content.now).image) }
{
    number(put_fitting(session_at(session), work, name, content))
}

// Put with a goal sector: 4, 9, 5, 11, 7, 8
#[tactic(auto, using(card::proofs::AnswerLaws::uncounted_number))]
pub fn fitting_put_at(
    session: &[u8; 24],
    work: &mut [u8],
    name: &[u8],
    content: &[u8],
    goal: u32,
) -> u32
    requires { FitOf (decoded session.now) work.old }
    ensures { (result ≡ (put_at (decoded session.now) work.old name.now content.now goal).answer.number) × (work.new ≡ (put_at (decoded session.now) work.old name.now content.now goal).image) }
{
    number(put_at_fitting(session_at(session), work, name, content, Sector(goal)))
}

// remove: 4, 9, 5, 6
#[tactic(auto, using(card::proofs::AnswerLaws::uncounted_number))]
pub fn fitting_remove(session: &[u8; 24], work: &mut [u8], name: &[u8]) -> u32
    requires { FitOf (decoded session.now) work.old }
    ensures { (result ≡ (remove (decoded session.now) work.old name.now).answer.number) × (work.new ≡ (remove (decoded session.now) work.old name.now).image) }
{
    number(remove_fitting(session_at(session), work, name))
}

// get: 4, 5, 6, 10; the file's bytes fill the first of the output and are counted, the rest stays.
pub fn fitting_get(session: &[u8; 24], work: &[u8], name: &[u8], out: &mut [u8]) -> Answer
    requires { FitOf (decoded session.now) work.now }
    ensures { (result ≡ (get (decoded session.now) work.now name.now out.old).answer) × (out.new ≡ (get (decoded session.now) work.now name.now out.old).out) }
{
    Answer::from(get_fitting(session_at(session), work, name, out))
}

// list: 4, 10; each line is a file's, the files are counted, and later lines stay.
pub fn fitting_list(session: &[u8; 24], work: &[u8], lines: &mut [Line]) -> Answer
    requires { FitOf (decoded session.now) work.now }
    ensures { (result ≡ (list (decoded session.now) work.now lines.old).answer) × (lines.new ≡ (list (decoded session.now) work.now lines.old).lines) }
{
    Answer::from(list_fitting(session_at(session), work, lines))
}

// free: 4; the words free and waiting, and on a refusal the output as lent.
pub fn fitting_free(session: &[u8; 24], work: &[u8], out: &mut [u8; 8]) -> u32
    requires { FitOf (decoded session.now) work.now }
    ensures { (result ≡ (free (decoded session.now) work.now).number) × (out.new ≡ roomed (free (decoded session.now) work.now) out.old) }
{
    give_figures(free_fitting(session_at(session), work), out)
}

// land: 4, 1, 11
#[tactic(auto, using(card::proofs::AnswerLaws::uncounted_number, store::proofs::Fitting::on_of))]
pub fn fitting_land(session: &[u8; 24], card: &mut [u8], work: &[u8], sector: u32) -> u32
    requires { FitOf (decoded session.now) work.now }
    ensures { (result ≡ (land (decoded session.now) card.old work.now sector).answer.number) × (card.new ≡ (land (decoded session.now) card.old work.now sector).image) }
{
    number(land_fitting(session_at(session), card, work, Sector(sector)))
}

// sync: 4, 1, 9, with the number of sectors written; on a refusal the session's bytes stay as lent.
#[tactic(auto, using(store::proofs::Fitting::on_of), unfolding(host_crossing::specs::Crossing::kept))]
pub fn fitting_sync_count(session: &mut [u8; 24], card: &mut [u8], work: &mut [u8]) -> Answer
    requires { FitOf (decoded session.old) work.old }
    ensures { IsKept result session.new card.new work.new session.old (sync (decoded session.old) card.old work.old) }
{
    keep_synced(sync_fitting(session_at(session), card, work), session)
}

// The same call, its number alone.
pub fn fitting_sync(session: &mut [u8; 24], card: &mut [u8], work: &mut [u8]) -> u32
    requires { FitOf (decoded session.old) work.old }
    ensures { IsKeptNumber result session.new card.new work.new session.old (sync (decoded session.old) card.old work.old) }
{
    fitting_sync_count(session, card, work).number
}

// unmount: 4, 1, with the number of sectors its sync wrote; with 0 the session's bytes are the closed session, on a refusal as lent.
#[tactic(auto, using(store::proofs::Fitting::on_of), unfolding(host_crossing::specs::Crossing::kept))]
pub fn fitting_unmount(session: &mut [u8; 24], card: &mut [u8], work: &mut [u8]) -> Answer
    requires { FitOf (decoded session.old) work.old }
    ensures { IsKept result session.new card.new work.new session.old (unmount (decoded session.old) card.old work.old) }
{
    close(unmount_fitting(session_at(session), card, work), session)
}
