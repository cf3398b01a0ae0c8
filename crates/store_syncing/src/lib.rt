// The writes of sync and unmount, one sector at a time and in their order.
#![tactic(auto)]

ghost use Rattle.std.specs.Prelude.{◌≡◌, [], ◌+◌, ◌*◌, ◌≤◌, ◌<◌, length, take};
ghost use Rattle.sectors.specs.Sectors.{sec, apply_steps, apply_step, writes_in, lean_writes};
ghost use Rattle.counts.specs.Stamps.{max_tx};
ghost use Rattle.store.specs.Steps.{set_count, set_word, table_sector, past_table, sync_steps, all_steps, at_top, unmount_steps, all_down, synced_at, down_at, written_at, counted_at, unmount_count, sync_work, unmount_work};
ghost use Rattle.store.specs.Sync.{grown};
ghost use Rattle.store.specs.Inner.{counts_at, CanSync};

use counts::{CrashCount, TxCount};
use sectors::Sector;
use session::Opened;
pub use store::Synced;

// ---- sync

// How many sectors lie past the table.
fn past_table(s: Opened) -> u32
    requires { (s.geo.t < s.geo.s) × (s.geo.s ≤ 65536) }
    ensures { (result ≡ past_table s) × (result < 65536) }
{
    s.geo.s - s.geo.t - 1
}

// How many places a sync has: sector 0, those sectors, and the table sector between two barriers.
fn places(s: Opened) -> u32
    requires { (s.geo.t < s.geo.s) × (s.geo.s ≤ 65536) }
    ensures { (result ≡ past_table s + 4) × (result < 65540) }
{
    past_table(s) + 4
}

// The table sector that holds word c.
#[tactic(auto, unfolding(store::specs::Steps::table_sector))]
fn table_sector(c: CrashCount) -> Sector
    ensures { result.0 ≡ table_sector c.0 }
{
    Sector(1 + c.0 / 128)
}

// That sector, as the working image has it with word c = t.
#[tactic(auto, using(crate::proofs::LastPlace::blocks), unfolding(store::specs::Steps::table_sector))]
fn table_block(s: Opened, work: &[u8]) -> [u8; 512]
    requires { 512 * table_sector s.c.0 + 512 ≤ length work.now }
    ensures { result ≡ sec (set_word s.c.0 s.t.0 work.now) (table_sector s.c.0) }
{
    store_mounting::sector_with(work, table_sector(s.c), 4 * (s.c.0 as usize % 128), s.t.0)
}

// Place number k of sync, and how many sectors are written there: sector 0 and the sectors past the table in rising order, each if it differs, then
// between two barriers the table sector that holds word c.
#[tactic(auto, using(crate::proofs::LastPlace::places), unfolding(store::specs::Steps::table_sector, counts::specs::Geometry::g_n))]
fn sync_step(s: Opened, card: &mut [u8], work: &[u8], k: u32) -> u32
    requires { CanSync s card.old work.now }
    ensures { (card.new ≡ apply_step k (all_steps s work.now []) card.old) × ((result ≡ lean_writes (past_table s + 1) k (all_steps s work.now []) card.old) × (result ≤ 1)) }
{
    // No match: a write ends its step, by a return or as the body's last line, and bench/tests/forms.rs reads that here.
    if k == 0 {
        return sectors::copy_changed(card, work, Sector(0));
    }
    let past = past_table(s);
    if k <= past {
        return sectors::copy_changed(card, work, Sector(s.geo.t + k));
    }
    if k != past + 2 {
        return 0;
    }
    sectors::write_sector(card, table_sector(s.c), &table_block(s, work));
    1
}

// The first k places of sync: those of its steps that stand there are done, and their writes counted.
#[tactic(auto, using(crate::proofs::LastPlace::walks), unfolding(sectors::specs::Sectors::apply_steps))]
pub fn sync_steps(s: Opened, card: &mut [u8], work: &[u8], k: u32) -> u32
    requires { CanSync s card.old work.now }
    ensures { (card.new ≡ apply_steps (take (synced_at s card.old work.now k) (sync_steps s card.old work.now [])) card.old) × (result ≡ written_at s card.old work.now k) }
{
    let mut written = 0;
    for i in 0..k.min(places(s)) {
        written += sync_step(s, card, work, i);
    }
    written
}

// Whether t is at its top.
#[tactic(auto, unfolding(store::specs::Steps::at_top))]
fn at_top(s: Opened) -> bool
    ensures { result ≡ at_top s }
{
    s.t == counts::top()
}

// "Then t grows by 1. At t = 2,147,483,647 it lands too, t stays, and the session is worn"
#[tactic(auto, unfolding(store::specs::Sync::grown))]
fn after_sync(s: Opened) -> Opened
    requires { s.t.0 ≤ max_tx }
    ensures { result ≡ grown (at_top s) s }
{
    if at_top(s) {
        return Opened { worn: true, ..s };
    }
    Opened {
        t: TxCount(s.t.0 + 1),
        worn: false,
        ..s
    }
}

// All steps of sync, then word c is t in the working image too.
#[tactic(auto, using(crate::proofs::LastPlace::whole), unfolding(counts::specs::Geometry::g_n, store::specs::Steps::sync_work))]
pub fn sync_in(s: Opened, card: &mut [u8], work: &mut [u8]) -> Synced
    requires { CanSync s card.old work.old }
    ensures { (result.session ≡ grown (at_top s) s) × ((result.written ≡ writes_in (sync_steps s card.old work.old [])) × ((card.new ≡ apply_steps (sync_steps s card.old work.old []) card.old) × (work.new ≡ sync_work s work.old))) }
{
    let written = sync_steps(s, card, work, places(s));
    store_mounting::set_word(work, s.c, s.t);
    Synced {
        session: after_sync(s),
        written,
    }
}

// ---- unmount

// Sector 0 with C = c, as the working image has it by then.
#[tactic(auto, using(crate::proofs::LastPlace::blocks))]
fn down_block(s: Opened, work: &[u8]) -> [u8; 512]
    requires { 512 ≤ length work.now }
    ensures { result ≡ sec (set_count s.c.0 (set_word s.c.0 s.t.0 work.now)) 0 }
{
    store_mounting::sector_with(work, Sector(0), 0, s.c.0)
}

// Place number k of unmount, and how many of its writes count: those of sync, then sector 0 with C = c unless the session becomes worn, which does
// not count; none where it is worn.
#[tactic(auto, using(crate::proofs::LastPlace::down_places), unfolding(sectors::specs::Sectors::apply_steps, store::specs::Steps::at_top, store::specs::Steps::down_steps))]
fn unmount_step(s: Opened, card: &mut [u8], work: &[u8], k: u32) -> u32
    requires { CanSync s card.old work.now }
    ensures { (card.new ≡ apply_step k (all_down s work.now) card.old) × ((result ≡ counts_at s.worn s work.now k card.old) × (result ≤ 1)) }
{
    // No match, as in sync_step.
    if s.worn {
        return 0;
    }
    let synced = places(s);
    if k < synced {
        return sync_step(s, card, work, k);
    }
    if k != synced || at_top(s) {
        return 0;
    }
    sectors::write_sector(card, Sector(0), &down_block(s, work));
    0
}

// The first k places of unmount: those of its steps that stand there are done, and the writes of sync among them counted.
#[tactic(auto, using(crate::proofs::LastPlace::down_walks), unfolding(sectors::specs::Sectors::apply_steps))]
pub fn unmount_steps(s: Opened, card: &mut [u8], work: &[u8], k: u32) -> u32
    requires { CanSync s card.old work.now }
    ensures { (card.new ≡ apply_steps (take (down_at s card.old work.now k) (unmount_steps s card.old work.now)) card.old) × (result ≡ counted_at s.worn s card.old work.now k) }
{
    // A loop of its own: one over a closure that writes the card would have to say in its contract how each call leaves the card.
    let mut written = 0;
    for i in 0..k.min(places(s) + 1) {
        written += unmount_step(s, card, work, i);
    }
    written
}

// The working image after unmount.
#[tactic(auto, unfolding(store::specs::Steps::unmount_work, store::specs::Steps::unmount_work_by, store::specs::Steps::sync_work, store::specs::Steps::down_work))]
fn unmount_work(s: Opened, work: &mut [u8])
    requires { (s.c.0 < 65536) × (512 + 4 * s.c.0 + 4 ≤ length work.old) }
    ensures { work.new ≡ unmount_work s work.old }
{
    if s.worn {
        return;
    }
    store_mounting::set_word(work, s.c, s.t);
    if !at_top(s) {
        store_mounting::set_count(work, s.c)
    }
}

// All steps of unmount, and the working image after them; how many sectors its sync wrote.
#[tactic(auto, using(crate::proofs::LastPlace::whole), unfolding(counts::specs::Geometry::g_n))]
pub fn unmount_in(s: Opened, card: &mut [u8], work: &mut [u8]) -> u32
    requires { CanSync s card.old work.old }
    ensures { (result ≡ unmount_count s card.old work.old) × ((card.new ≡ apply_steps (unmount_steps s card.old work.old) card.old) × (work.new ≡ unmount_work s work.old)) }
{
    let written = unmount_steps(s, card, work, places(s) + 1);
    unmount_work(s, work);
    written
}
