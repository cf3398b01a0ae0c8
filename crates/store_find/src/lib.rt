// What put finds in a session's two views: an entry and a run of sectors.
#![tactic(auto)]

ghost use Rattle.std.specs.Prelude.{◌≡◌, true, None, ◌+◌, ◌-◌, ◌*◌, ◌/◌, min, ◌≤◌, ◌<◌, length};
ghost use Rattle.sectors.specs.Sectors.{sec};
ghost use Rattle.counts.specs.Geometry.{g_p};
ghost use Rattle.counts.specs.Stamps.{table_in};
ghost use Rattle.counts.specs.Inner.{LaidOut};
ghost use Rattle.entries.specs.Entries.{sectors_for};
ghost use Rattle.apages.specs.Runs.{run_after, lowest_run, goal_run};
ghost use Rattle.apages.specs.Index.{page_in};
ghost use Rattle.apages.specs.Inner.{PairIn, run_from, run_within, further};
ghost use Rattle.session.specs.Fits.{fits};
ghost use Rattle.store.specs.Edit.{place_in, run_in};
ghost use Rattle.store_find.specs.Inner.{IsPages, found_of};

use card_files::page_at;
use counts::{Geo, Image, View};
use sectors::{Sector, sector_at};
use session::{Opened, present_view};

// The two pages of one pair that two views show.
#[derive(Clone, Copy)]
struct Pages {
    pair: u32,
    a: Sector,
    b: Sector,
}

// The entry that put uses: one with the name in either view, otherwise the lowest absent in both.
pub fn put_place(s: Opened, work: &[u8], name: &[u8]) -> Option<usize>
    requires { fits s work.now ≡ true }
    ensures { result ≡ place_in s work.now name.now }
{
    let present = present_view(s);
    let cut = counts::as_is(s.geo);
    let image = Image {
        geo: s.geo,
        bytes: work,
    };
    // A match, since the check learns nothing of a closure that captures an Image.
    match directory_search::find_name(image, present, cut, name) {
        Some(j) => Some(j),
        None => directory_search::find_free(image, present, cut),
    }
}

// The pages of pair p.
fn pages_at(work: &[u8], g: Geo, v: View, w: View, p: u32) -> Pages
    requires { LaidOut g work.now × (p < g_p g) }
    ensures { IsPages g (table_in g v (sec work.now)) (table_in g w (sec work.now)) (sec work.now) result × (result.pair ≡ p) }
{
    let image = Image {
        geo: g,
        bytes: work,
    };
    Pages {
        pair: p,
        a: page_at(image, v, p),
        b: page_at(image, w, p),
    }
}

// The lowest run of k sectors, from the pages' place `from` on and below their place `to`, that both have clear: its first sector, as one of the card.
#[tactic(auto, unfolding(apages::specs::Inner::further))]
fn run_on(work: &[u8], x: Pages, k: usize, from: usize, to: usize) -> Option<Sector>
    requires { (512 * x.a.0 + 512 ≤ length work.now) × ((512 * x.b.0 + 512 ≤ length work.now) × ((x.pair < 16) × ((0 < k) × (to ≤ 4096)))) }
    ensures { found_of result ≡ further (4096 * x.pair) (run_within k from to (sec work.now x.a.0) (sec work.now x.b.0)) }
{
    let here = apages::run_within(sector_at(work, x.a), sector_at(work, x.b), k, from, to);
    here.map(|n| Sector(4096 * x.pair + n as u32))
}

// The lowest run in the pages from `first` on and below `end` that is free in two views: that of the first page that has one.
fn lowest_in(
    work: &[u8],
    g: Geo,
    v: View,
    w: View,
    k: usize,
    first: u32,
    end: u32,
) -> Option<Sector>
    requires { LaidOut g work.now × (PairIn g work.now × ((end ≤ g_p g) × (0 < k))) }
    ensures { found_of result ≡ run_from g (table_in g v (sec work.now)) (table_in g w (sec work.now)) (sec work.now) k first (end - first) }
{
    for p in first..end {
        let x = pages_at(work, g, v, w, p);
        if let Some(a) = run_on(work, x, k, 0, 4096) {
            return Some(a);
        }
    }
    None
}

// "the first fitting run at or after it": the goal's pages from the goal on, then those of the later pairs.
fn after_in(
    work: &[u8],
    g: Geo,
    v: View,
    w: View,
    k: usize,
    goal: Sector,
    x: Pages,
) -> Option<Sector>
    requires { LaidOut g work.now × (PairIn g work.now × ((goal.0 < g.s) × ((0 < k) × (IsPages g (table_in g v (sec work.now)) (table_in g w (sec work.now)) (sec work.now) x × (x.pair ≡ goal.0 / 4096))))) }
    ensures { found_of result ≡ run_after k goal.0 (page_in g (table_in g v (sec work.now)) (sec work.now)) (page_in g (table_in g w (sec work.now)) (sec work.now)) }
{
    let pairs = counts::pairs(g);
    let here = run_on(work, x, k, (goal.0 % 4096) as usize, 4096);
    here.or_else(|| lowest_in(work, g, v, w, k, x.pair + 1, pairs))
}

// The end of what a run of k sectors that starts below `from` can reach of a page.
fn reach(from: usize, k: usize) -> usize
    requires { (from ≤ 4096) × (0 < k) }
    ensures { result ≡ min (from + k - 1) 4096 }
{
    from.saturating_add(k - 1).min(4096)
}

// "else the lowest", where none starts at or after the goal: the pages before the goal's, then of its own no more than a run from below the goal can reach.
fn below_in(
    work: &[u8],
    g: Geo,
    v: View,
    w: View,
    k: usize,
    goal: Sector,
    x: Pages,
) -> Option<Sector>
    requires { LaidOut g work.now × (PairIn g work.now × ((goal.0 < g.s) × ((0 < k) × ((run_after k goal.0 (page_in g (table_in g v (sec work.now)) (sec work.now)) (page_in g (table_in g w (sec work.now)) (sec work.now)) ≡ None) × (IsPages g (table_in g v (sec work.now)) (table_in g w (sec work.now)) (sec work.now) x × (x.pair ≡ goal.0 / 4096)))))) }
    ensures { found_of result ≡ lowest_run k (page_in g (table_in g v (sec work.now)) (sec work.now)) (page_in g (table_in g w (sec work.now)) (sec work.now)) }
{
    let end = reach((goal.0 % 4096) as usize, k);
    lowest_in(work, g, v, w, k, 0, x.pair).or_else(|| run_on(work, x, k, 0, end))
}

// "the first fitting run at or after it, else the lowest": no more than one pass over all pages, each looked up once, and k - 1 sectors.
#[tactic(auto, unfolding(apages::specs::Runs::goal_run, words::specs::Lists::or_else))]
fn goal_in(work: &[u8], g: Geo, v: View, w: View, k: usize, goal: Sector) -> Option<Sector>
    requires { LaidOut g work.now × (PairIn g work.now × ((goal.0 < g.s) × (0 < k))) }
    ensures { found_of result ≡ goal_run k goal.0 (page_in g (table_in g v (sec work.now)) (sec work.now)) (page_in g (table_in g w (sec work.now)) (sec work.now)) }
{
    let x = pages_at(work, g, v, w, goal.0 / 4096);
    after_in(work, g, v, w, k, goal, x).or_else(|| below_in(work, g, v, w, k, goal, x))
}

// The run that put's k sectors go to: "start 0" for none, else the first free in both views at or after the goal, else the lowest.
pub fn run_in(s: Opened, work: &[u8], k: usize, goal: Sector) -> Option<Sector>
    requires { (fits s work.now ≡ true) × (goal.0 < s.geo.s) }
    ensures { found_of result ≡ run_in s work.now k goal.0 }
{
    if k == 0 {
        return Some(Sector(0));
    }
    let present = present_view(s);
    let cut = counts::as_is(s.geo);
    goal_in(work, s.geo, present, cut, k, goal)
}

// How many sectors a content takes, of any length.
#[tactic(auto, unfolding(entries::specs::Entries::sectors_for))]
pub fn sectors_of(content: &[u8]) -> usize
    ensures { result ≡ sectors_for (length content.now) }
{
    content.len().div_ceil(512)
}
