// The functions of crate host for C, by the same names: each hands its arguments on, and says what that function says. How a slice, an array, a session,
// a report and free's figures cross, and what a caller answers for, stands at the head of crate host.
#![tactic(auto)]

ghost use Rattle.std.specs.Prelude.{◌≡◌};
ghost use Rattle.card.specs.Make.{make};
ghost use Rattle.card.specs.Reading.{read, read_get};
ghost use Rattle.store.specs.Edit.{put, put_at, remove};
ghost use Rattle.store.specs.Look.{get, free};
ghost use Rattle.store.specs.Mount.{mount};
ghost use Rattle.store.specs.Sync.{land, sync, unmount};
ghost use Rattle.host_crossing.specs.Crossing.{geo_with, decoded, reported, roomed, IsMounted, IsKept, IsKeptNumber};
ghost use Rattle.host_crossing.specs.FirstSteps.{mount_first, sync_first, unmount_first};

use card::Answer;

// "make 1"
#[unsafe(no_mangle)]
pub extern "C" fn store_make(s: u32, t: u32, d: u32, card: &mut [u8]) -> u32
    ensures { (result ≡ (make (geo_with s t d) card.old).answer.number) × (card.new ≡ (make (geo_with s t d) card.old).image) }
{
    host::store_make(s, t, d, card)
}

// Reading a card: on a refusal the output stays as lent.
#[unsafe(no_mangle)]
pub extern "C" fn store_read(card: &[u8], out: &mut [u8; 16]) -> u32
    ensures { (result ≡ (read card.now).number) × (out.new ≡ reported (read card.now) out.old) }
{
    host::store_read(card, out)
}

// Reading's get: "1, 2, 5, 6, 10", over the files that a card shows.
#[unsafe(no_mangle)]
pub extern "C" fn store_read_get(card: &[u8], name: &[u8], out: &mut [u8]) -> Answer
    ensures { (result ≡ (read_get card.now name.now out.old).answer) × (out.new ≡ (read_get card.now name.now out.old).out) }
{
    host::store_read_get(card, name, out)
}

// "mount 1, 2, 3"; a refused mount gives the closed session.
#[unsafe(no_mangle)]
pub extern "C" fn store_mount(card: &mut [u8], work: &mut [u8], session: &mut [u8; 24]) -> u32
    ensures { IsMounted result session.new card.new work.new (mount card.old work.old) }
{
    host::store_mount(card, work, session)
}

// "put 4, 2, 9, 5, 7, 8"
#[unsafe(no_mangle)]
pub extern "C" fn store_put(session: &[u8; 24], work: &mut [u8], name: &[u8], content: &[u8]) -> u32
    ensures { (result ≡ (put (decoded session.now) work.old name.now content.now).answer.number) × (work.new ≡ (put (decoded session.now) work.old name.now content.now).image) }
{
    host::store_put(session, work, name, content)
}

// "remove 4, 2, 9, 5, 6"
#[unsafe(no_mangle)]
pub extern "C" fn store_remove(session: &[u8; 24], work: &mut [u8], name: &[u8]) -> u32
    ensures { (result ≡ (remove (decoded session.now) work.old name.now).answer.number) × (work.new ≡ (remove (decoded session.now) work.old name.now).image) }
{
    host::store_remove(session, work, name)
}

// "get 4, 2, 5, 6, 10": the file's bytes fill the first of the output and are counted; the rest stays.
#[unsafe(no_mangle)]
pub extern "C" fn store_get(session: &[u8; 24], work: &[u8], name: &[u8], out: &mut [u8]) -> Answer
    ensures { (result ≡ (get (decoded session.now) work.now name.now out.old).answer) × (out.new ≡ (get (decoded session.now) work.now name.now out.old).out) }
{
    host::store_get(session, work, name, out)
}

// Put with a goal sector: "4, 2, 9, 5", 11, "7, 8"
#[unsafe(no_mangle)]
pub extern "C" fn store_put_at(
    session: &[u8; 24],
    work: &mut [u8],
    name: &[u8],
    content: &[u8],
    goal: u32,
) -> u32
    ensures { (result ≡ (put_at (decoded session.now) work.old name.now content.now goal).answer.number) × (work.new ≡ (put_at (decoded session.now) work.old name.now content.now goal).image) }
{
    host::store_put_at(session, work, name, content, goal)
}

// "free 4, 2": the words free and waiting; on a refusal the output stays as lent.
#[unsafe(no_mangle)]
pub extern "C" fn store_free(session: &[u8; 24], work: &[u8], out: &mut [u8; 8]) -> u32
    ensures { (result ≡ (free (decoded session.now) work.now).number) × (out.new ≡ roomed (free (decoded session.now) work.now) out.old) }
{
    host::store_free(session, work, out)
}

// "sync 4, 1, 2, 9", with the number of sectors written; on a refusal the session's bytes stay as lent.
#[unsafe(no_mangle)]
pub extern "C" fn store_sync_count(
    session: &mut [u8; 24],
    card: &mut [u8],
    work: &mut [u8],
) -> Answer
    ensures { IsKept result session.new card.new work.new session.old (sync (decoded session.old) card.old work.old) }
{
    host::store_sync_count(session, card, work)
}

// The same call, its number alone.
#[unsafe(no_mangle)]
pub extern "C" fn store_sync(session: &mut [u8; 24], card: &mut [u8], work: &mut [u8]) -> u32
    ensures { IsKeptNumber result session.new card.new work.new session.old (sync (decoded session.old) card.old work.old) }
{
    host::store_sync(session, card, work)
}

// "unmount 4, 1, 2", with the number of sectors its sync wrote; with 0 the session's bytes are the closed session, on a refusal as lent.
#[unsafe(no_mangle)]
pub extern "C" fn store_unmount(session: &mut [u8; 24], card: &mut [u8], work: &mut [u8]) -> Answer
    ensures { IsKept result session.new card.new work.new session.old (unmount (decoded session.old) card.old work.old) }
{
    host::store_unmount(session, card, work)
}

// "land 4, 1, 2, 11"
#[unsafe(no_mangle)]
pub extern "C" fn store_land(session: &[u8; 24], card: &mut [u8], work: &[u8], sector: u32) -> u32
    ensures { (result ≡ (land (decoded session.now) card.old work.now sector).answer.number) × (card.new ≡ (land (decoded session.now) card.old work.now sector).image) }
{
    host::store_land(session, card, work, sector)
}

// ---- the first steps of a call

// "mount 1, 2, 3", then its first k steps on the card; no session, and the working image is only measured.
#[unsafe(no_mangle)]
pub extern "C" fn store_mount_steps(card: &mut [u8], work: &[u8], k: u32) -> u32
    ensures { (result ≡ (mount_first card.old work.now k).answer.number) × (card.new ≡ (mount_first card.old work.now k).image) }
{
    host::store_mount_steps(card, work, k)
}

// "sync 4, 1, 2, 9", then its steps at its first k places, with the number of sectors written there.
#[unsafe(no_mangle)]
pub extern "C" fn store_sync_steps(
    session: &[u8; 24],
    card: &mut [u8],
    work: &[u8],
    k: u32,
) -> Answer
    ensures { (result ≡ (sync_first (decoded session.now) card.old work.now k).answer) × (card.new ≡ (sync_first (decoded session.now) card.old work.now k).image) }
{
    host::store_sync_steps(session, card, work, k)
}

// "unmount 4, 1, 2", then its steps at its first k places, with the number of sectors that its sync writes there.
#[unsafe(no_mangle)]
pub extern "C" fn store_unmount_steps(
    session: &[u8; 24],
    card: &mut [u8],
    work: &[u8],
    k: u32,
) -> Answer
    ensures { (result ≡ (unmount_first (decoded session.now) card.old work.now k).answer) × (card.new ≡ (unmount_first (decoded session.now) card.old work.now k).image) }
{
    host::store_unmount_steps(session, card, work, k)
}
