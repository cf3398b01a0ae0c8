// When names, versions and entries keep their rules.
#![tactic(auto)]

ghost use Rattle.std.specs.Prelude.{◌≡◌, ◌&&◌, ◌||◌, length};
ghost use Rattle.words.specs.Bytes.{word_at};
ghost use Rattle.sectors.specs.Sectors.{sec};
ghost use Rattle.counts.specs.Stamps.{table_in};
ghost use Rattle.counts.specs.Inner.{InLimits};
ghost use Rattle.entries.specs.Entries.{version_of, is_absent, name_bytes, name_ok, sectors_for, run_ok, version_ok, entry_ok};

use counts::{CrashCount, Geo, Image, View};
use entries::Run;
use sectors::Sector;

// ---- well formed

// How many sectors some bytes take.
#[tactic(auto, unfolding(entries::specs::Entries::sectors_for))]
fn sectors_for(bytes: u32) -> u32
    ensures { result ≡ sectors_for bytes }
{
    bytes.div_ceil(512)
}

// Whether a run is as long as its bytes want, and lies inside the data and one page.
#[tactic(auto, unfolding(entries::specs::Entries::run_ok, entries::specs::Entries::pieces_of, entries::specs::Entries::piece_ok, words::specs::Lists::every))]
fn run_ok(g: Geo, r: Run) -> bool
    requires { InLimits g }
    ensures { result ≡ run_ok g r }
{
    let whole = r.sectors == sectors_for(r.bytes);
    if r.sectors == 0 {
        return whole && r.start == Sector(0);
    }
    let end = u64::from(r.start.0) + u64::from(r.sectors);
    let page = u64::from(r.start.0 % 4096) + u64::from(r.sectors);
    whole && counts::data_first(g) <= r.start && end <= u64::from(g.s) && page <= 4096
}

// Whether the 16 bytes of a version are well formed.
#[tactic(auto, unfolding(entries::specs::Entries::version_ok))]
fn version_ok(g: Geo, v: &[u8]) -> bool
    requires { InLimits g × (length v.now ≡ 16) }
    ensures { result ≡ version_ok g v.now }
{
    let run = Run {
        start: Sector(words::word_at(v, 4)),
        sectors: words::word_at(v, 8),
        bytes: words::word_at(v, 12),
    };
    match words::word_at(v, 0) {
        0 => run.start == Sector(0) && run.sectors == 0 && run.bytes == 0,
        1 => run_ok(g, run),
        _ => false,
    }
}

// Whether the version that an entry shows, its 16 bytes, is well formed, and the name too if it is present.
#[tactic(auto, unfolding(entries::specs::Entries::name_bytes))]
fn shown_ok(g: Geo, v: &[u8], p: &[u8]) -> bool
    requires { InLimits g × ((length v.now ≡ 16) × (length p.now ≡ 128)) }
    ensures { result ≡ (version_ok g v.now && (is_absent (version_of v.now) || name_ok (word_at p.now 8) (name_bytes p.now))) }
{
    version_ok(g, v)
        && (entries::is_absent(entries::version_of(v))
            || entries_names::name_ok(words::word_at(p, 8), &p[12..44]))
}

// Whether an entry passes in a view. Whether it is alive is looked up once.
pub fn entry_ok(card: Image, v: View, bound: CrashCount, p: &[u8]) -> bool
    requires { length p.now ≡ 128 }
    ensures { result ≡ entry_ok card.entry.geo bound.0 (table_in card.entry.geo v (sec card.entry.bytes.now)) p.now }
{
    let s = counts_stamps::stamp_of(p);
    let live = counts_stamps::alive(card, v, s);
    let at = entries_shown::new_or_old(live);
    counts_stamps::stamp_ok(card.geo, s)
        && counts_stamps::below(live, bound, s)
        && words::zeros(&p[76..])
        && shown_ok(card.geo, &p[at..at + 16], p)
}
