// The apage index: the codec of its groups, their rules, and the page that a group shows.
#![tactic(auto)]

ghost use Rattle.std.specs.Prelude.{◌≡◌, ◌+◌, ◌≤◌, ◌<◌, length};
ghost use Rattle.words.specs.Lists.{splice};
ghost use Rattle.apages.specs.Index.{index_of, group_bytes, pair_ok, group_ok, every_group, index_ok, shown_page};
ghost use Rattle.apages.specs.Inner.{group_at};
ghost use Rattle.sectors.specs.Sectors.{sec};
ghost use Rattle.counts.specs.Geometry.{g_p};
ghost use Rattle.counts.specs.Inner.{InLimits};
ghost use Rattle.counts.specs.Stamps.{table_in};

use apages::Index;
use counts::{CrashCount, Geo, Image, View};
use sectors::Sector;

// ---- a group

// Where group p stands in an image.
pub fn group_at(g: Geo, p: u32) -> usize
    ensures { result ≡ group_at g p }
{
    512 * (g.t as usize + 1) + 16 * (p as usize)
}

// "groups of cc, txc, A, B": the group that 16 bytes hold.
#[tactic(auto, unfolding(apages::specs::Index::index_of))]
pub fn index_of(x: &[u8]) -> Index
    requires { 16 ≤ length x.now }
    ensures { result ≡ index_of x.now }
{
    Index {
        stamp: counts_stamps::stamp_of(x),
        a: Sector(words::word_at(x, 8)),
        b: Sector(words::word_at(x, 12)),
    }
}

// Writes the four words of a group from `at` on.
pub fn put_group(s: &mut [u8], at: usize, x: Index)
    requires { at + 16 ≤ length s.old }
    ensures { s.new ≡ splice s.old at (group_bytes x) }
{
    words::put_word(s, at, x.stamp.cc.0);
    words::put_word(s, at + 4, x.stamp.txc.0);
    words::put_word(s, at + 8, x.a.0);
    words::put_word(s, at + 12, x.b.0)
}

// "Pair p is T + 2 + 2p and T + 3 + 2p": A and B are the two, in either order.
#[tactic(auto, unfolding(apages::specs::Index::pair_ok))]
fn pair_ok(g: Geo, p: u32, a: Sector, b: Sector) -> bool
    requires { InLimits g × (p < g_p g) }
    ensures { result ≡ pair_ok g p a.0 b.0 }
{
    let (low, high) = counts::pair(g, p);
    (a, b) == (low, high) || (a, b) == (high, low)
}

// Whether group p passes in a view, with dead stamps below a bound.
#[tactic(auto, unfolding(apages::specs::Index::index_of, apages::specs::Index::group_ok))]
fn group_ok(card: Image, v: View, bound: CrashCount, p: u32, x: &[u8]) -> bool
    requires { (p < g_p card.geo) × (16 ≤ length x.now) }
    ensures { result ≡ group_ok card.entry.geo bound.0 (table_in card.entry.geo v (sec card.entry.bytes.now)) p x.now }
{
    let i = index_of(x);
    counts_stamps::stamp_ok(card.geo, i.stamp)
        && counts_stamps::dead_below(card, v, bound, i.stamp)
        && pair_ok(card.geo, p, i.a, i.b)
}

// "The index shows apage A when alive, B when dead.": the page that a group shows.
#[tactic(auto, unfolding(apages::specs::Index::index_of, apages::specs::Index::shown_page, counts::specs::Stamps::showing))]
pub fn shown_page(card: Image, v: View, x: &[u8]) -> Sector
    requires { 16 ≤ length x.now }
    ensures { result.0 ≡ shown_page (table_in card.entry.geo v (sec card.entry.bytes.now)) x.now }
{
    let i = index_of(x);
    if counts_stamps::alive(card, v, i.stamp) {
        i.a
    } else {
        i.b
    }
}

// ---- the index sector: "the index holds P groups"

// Whether every group passes.
fn groups_ok(card: Image, v: View, bound: CrashCount, ix: &[u8]) -> bool
    requires { length ix.now ≡ 512 }
    ensures { result ≡ every_group (group_ok card.entry.geo bound.0 (table_in card.entry.geo v (sec card.entry.bytes.now))) ix.now 0 (g_p card.entry.geo) }
{
    (0..counts::pairs(card.geo))
        .zip(ix.as_chunks::<16>().0)
        .all(|(p, x)| group_ok(card, v, bound, p, x))
}

// Whether the index passes in a view, with dead stamps below a bound: each group, and "the rest 0".
#[tactic(auto, unfolding(apages::specs::Index::index_ok))]
pub fn index_ok(card: Image, v: View, bound: CrashCount, ix: &[u8]) -> bool
    requires { length ix.now ≡ 512 }
    ensures { result ≡ index_ok card.entry.geo bound.0 (table_in card.entry.geo v (sec card.entry.bytes.now)) ix.now }
{
    let from = 16 * (counts::pairs(card.geo) as usize);
    groups_ok(card, v, bound, ix) && words::zeros(&ix[from..])
}
