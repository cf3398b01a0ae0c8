// What an entry's bytes are, and which version it shows in a view.
#![tactic(auto)]

ghost use Rattle.std.specs.Prelude.{◌≡◌, cond, ◌+◌, ◌≤◌, length, take, drop};
ghost use Rattle.sectors.specs.Sectors.{sec};
ghost use Rattle.counts.specs.Stamps.{table_in};
ghost use Rattle.entries.specs.Entries.{entry_of, shown};

use counts::{Image, View};
use entries::{Entry, Version, name_at, version_of};

// The entry that 128 bytes are.
#[tactic(auto, unfolding(entries::specs::Entries::entry_of, entries::specs::Entries::name_bytes, entries::specs::Entries::new_of, entries::specs::Entries::old_of))]
fn entry_of(p: &[u8]) -> Entry
    requires { length p.now ≡ 128 }
    ensures { result ≡ entry_of p.now }
{
    Entry {
        stamp: counts_stamps::stamp_of(p),
        size: words::word_at(p, 8),
        name: name_at(p, 12),
        new: version_of(&p[44..60]),
        old: version_of(&p[60..76]),
    }
}

// The entry whose 128 bytes stand from `at` on.
pub fn entry_at(s: &[u8], at: usize) -> Entry
    requires { at + 128 ≤ length s.now }
    ensures { result ≡ entry_of (take 128 (drop at s.now)) }
{
    entry_of(&s[at..at + 128])
}

// Where the version that an entry shows stands in it: the new one or the old one.
pub fn new_or_old(live: bool) -> usize
    ensures { (result ≡ cond live 44 60) × (result ≤ 60) }
{
    if live { 44 } else { 60 }
}

// The version that an entry shows in a view.
pub fn shown(card: Image, v: View, p: &[u8]) -> Version
    requires { length p.now ≡ 128 }
    ensures { result ≡ shown (table_in card.entry.geo v (sec card.entry.bytes.now)) p.now }
{
    let live = counts_stamps::alive(card, v, counts_stamps::stamp_of(p));
    let at = new_or_old(live);
    version_of(&p[at..at + 16])
}
