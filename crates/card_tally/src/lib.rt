// The bitmap's rule, tested with no map: from the ones of the bitmap's words and the files' own runs.
#![tactic(auto)]

ghost use Rattle.std.specs.Prelude.{◌≡◌, ◌+◌, ◌*◌, ◌/◌, ◌%◌, ◌≤◌, ◌<◌, length, drop};
ghost use Rattle.words.specs.Lists.{every, pairwise};
ghost use Rattle.sectors.specs.Sectors.{sec};
ghost use Rattle.counts.specs.Geometry.{g_p};
ghost use Rattle.counts.specs.Stamps.{table_in};
ghost use Rattle.counts.specs.Inner.{InLimits, LaidOut};
ghost use Rattle.directory.specs.Directory.{entries_of};
ghost use Rattle.apages.specs.Ones.{all_set};
ghost use Rattle.apages.specs.Runs.{page_ok};
ghost use Rattle.apages.specs.Index.{page_in};
ghost use Rattle.apages.specs.Inner.{PairIn};
ghost use Rattle.card.specs.Files.{files_of, cover, sectors_of};
ghost use Rattle.card.specs.Inner.{RunsOk};
ghost use Rattle.card.specs.Tally.{held_by, parted, parted_from, parted_in, fixed_bits};
ghost use Rattle.card_order.specs.Inner.{Walked};
ghost use Rattle.card_tally.specs.Inner.{IsShown};

use card_files::run_at;
use card_order::Walk;
use counts::{Geo, Image, View};
use entries::Run;
use sectors::Sector;

// What one walk over the shown runs finds: whether their bits are set, their sectors, and the walk over those that lie one after another.
#[derive(Clone, Copy)]
struct Tally {
    set: bool,
    sectors: u32,
    own: Walk,
}

// The page of a pair.
#[derive(Clone, Copy)]
struct Page {
    pair: u32,
    at: Sector,
}

// How many of n bits lie below F or from S up.
#[tactic(auto, unfolding(card::specs::Tally::fixed_bits))]
fn fixed_bits(g: Geo, n: u32) -> u32
    requires { InLimits g × (g.s ≤ n) }
    ensures { (result ≡ fixed_bits g n) × (result ≤ n) }
{
    n - g.s.saturating_sub(counts::data_first(g).0)
}

// Whether the bits of k sectors from a on are set in a page, that of their pair.
fn page_held(card: &[u8], page: Sector, a: Sector, k: u32) -> bool
    requires { (512 * page.0 + 512 ≤ length card.now) × (a.0 % 4096 + k ≤ 4096) }
    ensures { result ≡ all_set (sec card.now page.0) (a.0 % 4096) k }
{
    apages_ones::run_set(
        sectors::sector_at(card, page),
        (a.0 % 4096) as usize,
        k as usize,
    )
}

// Whether the bits of k sectors from a on, all of one page, are set in the page that a view shows.
fn held(card: Image, v: View, a: Sector, k: u32) -> bool
    requires { PairIn card.geo card.bytes.now × ((a.0 % 4096 + k ≤ 4096) × (0 < k → a.0 < 4096 * g_p card.geo)) }
    ensures { result ≡ all_set (page_in card.entry.geo (table_in card.entry.geo v (sec card.entry.bytes.now)) (sec card.entry.bytes.now)) a.0 k }
{
    if k == 0 {
        return true;
    }
    let page = card_files::page_at(card, v, a.0 / 4096);
    page_held(card.bytes, page, a, k)
}

// The page of a run's pair: the one known, where it is of that pair or the run has no sectors.
fn page_of(card: Image, v: View, known: Page, r: Run) -> Page
    requires { (r.start.0 + r.sectors ≤ 4096 * g_p card.geo) × IsShown card.geo (table_in card.geo v (sec card.bytes.now)) (sec card.bytes.now) known }
    ensures { IsShown card.entry.geo (table_in card.entry.geo v (sec card.entry.bytes.now)) (sec card.entry.bytes.now) result × (0 < r.sectors → result.pair ≡ r.start.0 / 4096) }
{
    let pair = r.start.0 / 4096;
    if r.sectors == 0 || pair == known.pair {
        return known;
    }
    let at = card_files::page_at(card, v, pair);
    Page { pair, at }
}

// One walk over the shown runs: whether their bits are set, their sectors, and how far they lie one after another in the order of their entries.
fn tally_of(card: Image, v: View) -> Tally
    requires { PairIn card.geo card.bytes.now × RunsOk card.geo (table_in card.geo v (sec card.bytes.now)) (entries_of card.geo (sec card.bytes.now)) }
    ensures { (result.set ≡ every (held_by (table_in card.entry.geo v (sec card.entry.bytes.now)) (page_in card.entry.geo (table_in card.entry.geo v (sec card.entry.bytes.now)) (sec card.entry.bytes.now))) (entries_of card.entry.geo (sec card.entry.bytes.now))) × ((result.sectors ≡ sectors_of (files_of (table_in card.entry.geo v (sec card.entry.bytes.now)) (entries_of card.entry.geo (sec card.entry.bytes.now)))) × ((result.sectors ≤ 16777216) × Walked card.entry.geo (files_of (table_in card.entry.geo v (sec card.entry.bytes.now)) (entries_of card.entry.geo (sec card.entry.bytes.now))) result.own)) }
{
    let mut page = Page {
        pair: 0,
        at: card_files::page_at(card, v, 0),
    };
    let mut set = true;
    let mut sectors = 0;
    let mut own = Walk::START;
    for j in 0..4 * (card.geo.d as usize) {
        let r = run_at(card, v, j);
        page = page_of(card, v, page, r);
        set &= page_held(card.bytes, page.at, r.start, r.sectors);
        sectors += r.sectors;
        own = card_order::step(own, r);
    }
    Tally { set, sectors, own }
}

// Whether two runs do not meet: one ends where the other starts, or before.
#[tactic(auto, unfolding(card::specs::Tally::parted))]
fn parted(r: Run, q: Run) -> bool
    requires { (r.start.0 + r.sectors ≤ 65536) × (q.start.0 + q.sectors ≤ 65536) }
    ensures { result ≡ parted r q }
{
    r.start.0 + r.sectors <= q.start.0 || q.start.0 + q.sectors <= r.start.0
}

// Whether a run meets none of those that the entries from i on show.
fn parted_from(card: Image, v: View, r: Run, i: usize) -> bool
    requires { (r.start.0 + r.sectors ≤ card.geo.s) × ((i ≤ 4 * card.geo.d) × RunsOk card.geo (table_in card.geo v (sec card.bytes.now)) (entries_of card.geo (sec card.bytes.now))) }
    ensures { result ≡ every (parted_from (table_in card.entry.geo v (sec card.entry.bytes.now)) r) (drop i (entries_of card.entry.geo (sec card.entry.bytes.now))) }
{
    for j in i..4 * (card.geo.d as usize) {
        if !parted(r, run_at(card, v, j)) {
            return false;
        }
    }
    true
}

// Whether no two shown runs meet, run by run. From the last entry down: the files of the entries before `rest` start at `low` or past it, so a run that ends
// there is compared with those from `rest` on only, and where the files lie in the order of their entries with none.
fn pairs_apart(card: Image, v: View) -> bool
    requires { RunsOk card.geo (table_in card.geo v (sec card.bytes.now)) (entries_of card.geo (sec card.bytes.now)) }
    ensures { result ≡ pairwise (parted_in (table_in card.entry.geo v (sec card.entry.bytes.now))) (entries_of card.entry.geo (sec card.entry.bytes.now)) }
{
    let mut rest = 4 * (card.geo.d as usize);
    let mut low = card.geo.s;
    for i in (0..4 * (card.geo.d as usize)).rev() {
        let r = run_at(card, v, i);
        if r.sectors == 0 {
            continue;
        }
        if low < r.start.0 + r.sectors {
            rest = i + 1;
        }
        if !parted_from(card, v, r, rest) {
            return false;
        }
        low = r.start.0;
    }
    true
}

// Whether no two shown runs meet. Runs that lie one after another, in the order of their entries or of their starts, and have all sectors that the
// files have, do not; others are compared two by two. Two rounds take all starts.
fn runs_apart(card: Image, v: View, sectors: u32, own: Walk, order: &mut [u8; 128]) -> bool
    requires { RunsOk card.geo (table_in card.geo v (sec card.bytes.now)) (entries_of card.geo (sec card.bytes.now)) × ((sectors ≡ sectors_of (files_of (table_in card.geo v (sec card.bytes.now)) (entries_of card.geo (sec card.bytes.now)))) × Walked card.geo (files_of (table_in card.geo v (sec card.bytes.now)) (entries_of card.geo (sec card.bytes.now))) own) }
    ensures { result ≡ pairwise (parted_in (table_in card.entry.geo v (sec card.entry.bytes.now))) (entries_of card.entry.geo (sec card.entry.bytes.now)) }
{
    if own.sum == sectors {
        return true;
    }
    let one = card_order::round(card, v, order, Walk::START);
    if one.sum == sectors {
        return true;
    }
    let two = card_order::round(card, v, order, one);
    two.sum == sectors || pairs_apart(card, v)
}

// Whether the pages that a view shows have set exactly the bits below F, from S up, and of the sectors of the shown files, each in one file; for
// runs that are well formed. What the scratch holds is of no use before or after.
pub fn pages_ok(card: &[u8], g: Geo, v: View, scratch: &mut [u8; 128]) -> bool
    requires { LaidOut g card.now × (PairIn g card.now × RunsOk g (table_in g v (sec card.now)) (entries_of g (sec card.now))) }
    ensures { result ≡ page_ok g (cover (files_of (table_in g v (sec card.now)) (entries_of g (sec card.now)))) (page_in g (table_in g v (sec card.now)) (sec card.now)) }
{
    // A slice, since that its elements are bytes is known of a slice that comes in, and not of one in an Image.
    let image = Image {
        geo: g,
        bytes: card,
    };
    let bits = 4096 * counts::pairs(g);
    let first = counts::data_first(g);
    let low = held(image, v, Sector(0), first.0);
    let high = held(image, v, Sector(g.s), bits - g.s);
    let t = tally_of(image, v);
    let apart = runs_apart(image, v, t.sectors, t.own, scratch);
    let ones = bits - card_files::clear_in(image, v);
    let count = fixed_bits(g, bits) + t.sectors;
    low && high && t.set && apart && ones == count
}
