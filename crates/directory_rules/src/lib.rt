// The rules of all entries: each passes, and no name is shown by two.
#![tactic(auto)]

ghost use Rattle.std.specs.Prelude.{◌≡◌, cond, [], ◌+◌, ◌*◌, ◌<◌, eqb, length, drop, get_or};
ghost use Rattle.words.specs.Lists.{every, pairwise};
ghost use Rattle.sectors.specs.Sectors.{sec};
ghost use Rattle.counts.specs.Stamps.{table_in};
ghost use Rattle.entries.specs.Entries.{version_of, new_of, old_of, is_absent, name_of, entry_ok};
ghost use Rattle.directory.specs.Directory.{entries_of, gone, apart};
ghost use Rattle.apages.specs.Bits.{bit_at, put_bit};
ghost use Rattle.directory_rules.specs.Inner.{Marking, Known};

use counts::{CrashCount, Image, View};

// Whether every entry passes in a view.
pub fn entries_ok(card: Image, v: View, bound: CrashCount) -> bool
    ensures { result ≡ every (entry_ok card.entry.geo bound.0 (table_in card.entry.geo v (sec card.entry.bytes.now))) (entries_of card.entry.geo (sec card.entry.bytes.now)) }
{
    directory::entries(card).all(|p| entries_rules::entry_ok(card, v, bound, p))
}

// Whether the version that an entry shows is absent: the new one if it is alive, the old one if not.
#[tactic(auto, using(crate::proofs::Shows::none_here))]
fn shows_none(live: bool, p: &[u8]) -> bool
    requires { length p.now ≡ 128 }
    ensures { result ≡ is_absent (version_of (cond live (new_of p.now) (old_of p.now))) }
{
    words::word_at(p, entries_shown::new_or_old(live)) == 0
}

// Whether an entry shows no file in either of two views.
#[tactic(auto, using(crate::proofs::Shows::none_in), unfolding(directory::specs::Directory::gone))]
pub fn is_gone(card: Image, v: View, w: View, p: &[u8]) -> bool
    requires { length p.now ≡ 128 }
    ensures { result ≡ gone (table_in card.entry.geo v (sec card.entry.bytes.now)) (table_in card.entry.geo w (sec card.entry.bytes.now)) p.now }
{
    let s = counts_stamps::stamp_of(p);
    shows_none(counts_stamps::alive(card, v, s), p)
        && shows_none(counts_stamps::alive(card, w, s), p)
}

// Whether two entries do not both show a file, in either view, under one name.
#[tactic(auto, unfolding(directory::specs::Directory::apart))]
fn apart(card: Image, v: View, w: View, p: &[u8], q: &[u8]) -> bool
    requires { (length p.now ≡ 128) × (length q.now ≡ 128) }
    ensures { result ≡ apart (table_in card.entry.geo v (sec card.entry.bytes.now)) (table_in card.entry.geo w (sec card.entry.bytes.now)) p.now q.now }
{
    !entries_names::same_name(p, q) || is_gone(card, v, w, p) || is_gone(card, v, w, q)
}

// Whether entry i stands apart from each later one.
fn apart_from(card: Image, v: View, w: View, i: usize) -> bool
    requires { i < 4 * card.geo.d }
    ensures { result ≡ every (apart (table_in card.entry.geo v (sec card.entry.bytes.now)) (table_in card.entry.geo w (sec card.entry.bytes.now)) (get_or (entries_of card.entry.geo (sec card.entry.bytes.now)) i [])) (drop (i + 1) (entries_of card.entry.geo (sec card.entry.bytes.now))) }
{
    let p = directory::entry(card, i);
    (i + 1..4 * (card.geo.d as usize)).all(|j| apart(card, v, w, p, directory::entry(card, j)))
}

// Sets mark n. Whether it was clear.
fn mark(marks: &mut [u8], n: usize) -> bool
    requires { (length marks.old ≡ 128) × (n < 1024) }
    ensures { (result ≡ eqb (bit_at marks.old n) 0) × (marks.new ≡ put_bit marks.old n 1) }
{
    let was = apages::bit(marks, n);
    apages::put_bit(marks, n, true);
    !was
}

// Sets the marks of an entry's name. True only if no entry of that name had them set.
fn mark_name(marks: &mut [u8], p: &[u8]) -> bool
    requires { (length marks.old ≡ 128) × (length p.now ≡ 128) }
    ensures { Marking marks.old marks.new (name_of p.now) result }
{
    let h = entries_names::hash_at(p) as usize;
    let low = mark(marks, h % 1024);
    let high = mark(marks, h / 1024 % 1024);
    low | high
}

// The same as `apart_from`, with the marks of the later names: entry i is compared with them only if its own name has marks that are set.
fn alone(card: Image, v: View, w: View, marks: &mut [u8], i: usize) -> bool
    requires { (i < 4 * card.geo.d) × ((length marks.old ≡ 128) × Known (table_in card.geo v (sec card.bytes.now)) (table_in card.geo w (sec card.bytes.now)) (entries_of card.geo (sec card.bytes.now)) (i + 1) marks.old) }
    ensures { (result ≡ every (apart (table_in card.entry.geo v (sec card.entry.bytes.now)) (table_in card.entry.geo w (sec card.entry.bytes.now)) (get_or (entries_of card.entry.geo (sec card.entry.bytes.now)) i [])) (drop (i + 1) (entries_of card.entry.geo (sec card.entry.bytes.now)))) × Known (table_in card.entry.geo v (sec card.entry.bytes.now)) (table_in card.entry.geo w (sec card.entry.bytes.now)) (entries_of card.entry.geo (sec card.entry.bytes.now)) i marks.new }
{
    let p = directory::entry(card, i);
    is_gone(card, v, w, p) || mark_name(marks, p) || apart_from(card, v, w, i)
}

// Whether no name is shown, in either view, by two entries. From the last entry down, with marks of the names seen in the bytes that are lent.
pub fn names_ok(card: Image, v: View, w: View, marks: &mut [u8; 128]) -> bool
    ensures { result ≡ pairwise (apart (table_in card.entry.geo v (sec card.entry.bytes.now)) (table_in card.entry.geo w (sec card.entry.bytes.now))) (entries_of card.entry.geo (sec card.entry.bytes.now)) }
{
    marks.fill(0);
    for i in (0..4 * (card.geo.d as usize)).rev() {
        if !alone(card, v, w, marks, i) {
            return false;
        }
    }
    true
}
