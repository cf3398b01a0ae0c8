// Stamps: when one is alive, its rules, and how it stands to a session's own.
#![tactic(auto)]

ghost use Rattle.std.specs.Prelude.{◌≡◌, ◌||◌, ◌≤◌, ltb, length, get_or};
ghost use Rattle.sectors.specs.Sectors.{sec};
ghost use Rattle.counts.specs.Stamps.{table_in, stamp_of, alive, stamp_ok, dead_below, standing};
ghost use Rattle.counts.specs.Inner.{InLimits};

use counts::{CrashCount, Geo, Image, Stamp, Standing, TxCount, View};

// ---- the table

// Word cc of the table as a view takes it; 0 past it.
fn view_word(card: Image, v: View, cc: CrashCount) -> TxCount
    ensures { result.0 ≡ get_or (table_in card.entry.geo v (sec card.entry.bytes.now)) cc.0 0 }
{
    if counts::crash_counts(card.geo) <= cc.0 {
        return TxCount(0);
    }
    if cc == v.c {
        return v.t;
    }
    TxCount(counts::table_word(card, cc))
}

// ---- stamps

// The stamp that an entry or the index starts with.
#[tactic(auto, unfolding(counts::specs::Stamps::stamp_of))]
pub fn stamp_of(p: &[u8]) -> Stamp
    requires { 8 ≤ length p.now }
    ensures { result ≡ stamp_of p.now }
{
    Stamp {
        cc: CrashCount(words::word_at(p, 0)),
        txc: TxCount(words::word_at(p, 4)),
    }
}

// Whether a stamp is alive in a view.
#[tactic(auto, unfolding(counts::specs::Stamps::alive))]
pub fn alive(card: Image, v: View, s: Stamp) -> bool
    ensures { result ≡ alive (table_in card.entry.geo v (sec card.entry.bytes.now)) s }
{
    s.txc <= view_word(card, v, s.cc)
}

// Whether a stamp's counts are in range.
#[tactic(auto, unfolding(counts::specs::Stamps::stamp_ok))]
pub fn stamp_ok(g: Geo, s: Stamp) -> bool
    requires { InLimits g }
    ensures { result ≡ stamp_ok g s }
{
    s.cc.0 < counts::crash_counts(g) && s.txc <= counts::top()
}

// Whether a stamp is alive or has a crash count below a bound.
pub fn below(live: bool, bound: CrashCount, s: Stamp) -> bool
    ensures { result ≡ (live || ltb s.cc.0 bound.0) }
{
    live || s.cc < bound
}

// Whether a stamp, if it is dead in a view, has a crash count below a bound.
#[tactic(auto, unfolding(counts::specs::Stamps::dead_below))]
pub fn dead_below(card: Image, v: View, bound: CrashCount, s: Stamp) -> bool
    ensures { result ≡ dead_below bound.0 (table_in card.entry.geo v (sec card.entry.bytes.now)) s }
{
    below(alive(card, v, s), bound, s)
}

// How a stamp stands to the session's own, in a view.
#[tactic(auto, unfolding(counts::specs::Stamps::standing, counts::specs::Stamps::same_stamp))]
pub fn stands(card: Image, v: View, own: Stamp, s: Stamp) -> Standing
    ensures { result ≡ standing (table_in card.entry.geo v (sec card.entry.bytes.now)) own s }
{
    if s == own {
        Standing::Own
    } else if alive(card, v, s) {
        Standing::Alive
    } else {
        Standing::Dead
    }
}
