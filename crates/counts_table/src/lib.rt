// The crash count table: its words are in range, and those past C are 0.
#![tactic(auto)]

ghost use Rattle.std.specs.Prelude.{◌≡◌, ◌||◌, ◌+◌, ◌≤◌, ◌<◌, leb, ltb, drop, get_or};
ghost use Rattle.words.specs.Lists.{every, is_zero};
ghost use Rattle.sectors.specs.Sectors.{sec};
ghost use Rattle.counts.specs.Geometry.{g_n, table_of};
ghost use Rattle.counts.specs.Stamps.{max_tx, word_max, table_ok};
ghost use Rattle.counts_table.specs.Inner.{Judged};

use counts::{CrashCount, Geo, Image};

// ---- the table

// Word i of the table.
fn word_in(card: Image, i: u32) -> u32
    requires { i < g_n card.geo }
    ensures { result ≡ get_or (table_of card.entry.geo (sec card.entry.bytes.now)) i 0 }
{
    words::word_at(card.bytes, 512 + 4 * (i as usize))
}

// How many words have to be looked at: those up to c where the ones past it are known to be 0, else all.
fn judged(g: Geo, c: CrashCount, past: bool) -> u32
    requires { g.t ≤ 512 }
    ensures { (result ≤ g_n g) × Judged (g_n g) c.0 past result }
{
    let n = counts::crash_counts(g);
    if past && c.0 < n { c.0 + 1 } else { n }
}

// Whether every table word is at most 2,147,483,647; `past` says whether those past c are 0. It does not stop early, as `words::zeros`.
pub fn table_max(card: Image, c: CrashCount, past: bool) -> bool
    requires { past ≡ every is_zero (drop (c.0 + 1) (table_of card.geo (sec card.bytes.now))) }
    ensures { result ≡ every word_max (table_of card.entry.geo (sec card.entry.bytes.now)) }
{
    let top = counts::top();
    let mut ok = true;
    for i in 0..judged(card.geo, c, past) {
        ok &= word_in(card, i) <= top.0;
    }
    ok
}

// Whether the table words past c are 0. It does not stop early, as `words::zeros`.
pub fn zero_past(card: Image, c: CrashCount) -> bool
    ensures { result ≡ every is_zero (drop (c.0 + 1) (table_of card.entry.geo (sec card.entry.bytes.now))) }
{
    let mut ok = true;
    for i in c.0.saturating_add(1)..counts::crash_counts(card.geo) {
        ok &= word_in(card, i) == 0;
    }
    ok
}

// Whether table word c, if there is one, is at most 2,147,483,646.
fn word_below(card: Image, c: CrashCount) -> bool
    ensures { result ≡ (leb (g_n card.entry.geo) c.0 || ltb (get_or (table_of card.entry.geo (sec card.entry.bytes.now)) c.0 0) max_tx) }
{
    counts::crash_counts(card.geo) <= c.0 || counts::table_word(card, c) < counts::top().0
}

// Whether the table is sound under the crash count c.
#[tactic(auto, unfolding(counts::specs::Stamps::table_ok))]
pub fn table_ok(card: Image, c: CrashCount) -> bool
    ensures { result ≡ table_ok card.entry.geo c.0 (table_of card.entry.geo (sec card.entry.bytes.now)) }
{
    let past = zero_past(card, c);
    table_max(card, c, past) && past && word_below(card, c)
}
