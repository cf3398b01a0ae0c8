// Changing the bitmap: a run of bits of one page, under its group of the index.
#![tactic(auto)]

ghost use Rattle.std.specs.Prelude.{◌≡◌, ◌+◌, ◌*◌, ◌/◌, ◌%◌, ◌≤◌, ◌<◌, length};
ghost use Rattle.words_sums.specs.Sums.{bit};
ghost use Rattle.apages.specs.Bits.{set_run};
ghost use Rattle.apages.specs.Index.{changed_index, page_before, changed_run, change_run, change_bits};
ghost use Rattle.apages.specs.Inner.{PairIn, IsPage, InOnePage};
ghost use Rattle.sectors.specs.Sectors.{sec, set_sec};
ghost use Rattle.counts.specs.Geometry.{g_p};
ghost use Rattle.counts.specs.Inner.{LaidOut};
ghost use Rattle.counts.specs.Stamps.{table_in};

use apages::Index;
use counts::{Geo, Image, Stamp, Standing, View};
use entries::Run;
use sectors::Sector;

// A group under the session's own stamp: "when alive, A and B trade places".
#[tactic(auto, unfolding(apages::specs::Index::changed_index, counts::specs::Stamps::becomes_old))]
fn changed_index(st: Standing, own: Stamp, x: Index) -> Index
    ensures { result ≡ changed_index st own x }
{
    Index {
        stamp: own,
        a: st.becomes_old(x.b, x.a),
        b: st.becomes_old(x.a, x.b),
    }
}

// The page whose bits A has before they change: its own, or "the page at B".
fn page_before(st: Standing, x: Index) -> Sector
    ensures { result.0 ≡ page_before st x }
{
    match st {
        Standing::Own => x.a,
        Standing::Alive => x.b,
        Standing::Dead => x.b,
    }
}

// One page becomes a copy of another: nothing is done where they are one.
fn copy_page(img: &mut [u8], from: Sector, to: Sector)
    requires { (512 * from.0 + 512 ≤ length img.old) × (512 * to.0 + 512 ≤ length img.old) }
    ensures { img.new ≡ set_sec img.old to.0 (sec img.old from.0) }
{
    if from == to {
        return;
    }
    let mut page = [0u8; 512];
    page.copy_from_slice(sectors::sector_at(img, from));
    sectors::write_sector(img, to, &page)
}

// In the page at sector i of an image n bits from a on are made v.
fn change_page(img: &mut [u8], i: Sector, a: u32, n: u32, v: bool)
    requires { (512 * i.0 + 512 ≤ length img.old) × (a + n ≤ 4096) }
    ensures { img.new ≡ set_sec img.old i.0 (set_run (sec img.old i.0) a n (bit v)) }
{
    let at = i.offset();
    apages::set_run(&mut img[at..at + 512], a as usize, n as usize, v)
}

// Writes the group of sector a; in the page A that it names n sectors from a on are made v.
fn change_pair(img: &mut [u8], g: Geo, st: Standing, y: Index, a: Sector, n: u32, v: bool)
    requires { LaidOut g img.old × ((a.0 / 4096 < g_p g) × ((IsPage g (a.0 / 4096) y.a.0 × IsPage g (a.0 / 4096) y.b.0) × (a.0 % 4096 + n ≤ 4096))) }
    ensures { img.new ≡ changed_run g st y a.0 n (bit v) img.old }
{
    let at = apages_index::group_at(g, a.0 / 4096);
    apages_index::put_group(img, at, y);
    copy_page(img, page_before(st, y), y.a);
    change_page(img, y.a, a.0 % 4096, n, v)
}

// "Changing the bitmap, only where a bit changes": n sectors from a on, all of one page, are made v.
fn change_run(img: &mut [u8], g: Geo, v: View, own: Stamp, a: Sector, n: u32, set: bool)
    requires { LaidOut g img.old × (PairIn g img.old × ((a.0 % 4096 + n ≤ 4096) × (0 < n → a.0 < 4096 * g_p g))) }
    ensures { img.new ≡ change_run g (table_in g v (sec img.old)) own a.0 n (bit set) img.old }
{
    if n == 0 {
        return;
    }
    let at = apages_index::group_at(g, a.0 / 4096);
    let x = apages_index::index_of(&img[at..at + 16]);
    let image = Image { geo: g, bytes: img };
    let st = counts_stamps::stands(image, v, own, x.stamp);
    change_pair(img, g, st, changed_index(st, own, x), a, n, set)
}

// The sectors of a new run become set, then those of an old one clear.
pub fn change_bits(img: &mut [u8], g: Geo, v: View, own: Stamp, new: Run, old: Run)
    requires { LaidOut g img.old × (PairIn g img.old × (InOnePage g new × InOnePage g old)) }
    ensures { img.new ≡ change_bits g (table_in g v (sec img.old)) own new old img.old }
{
    change_run(img, g, v, own, new.start, new.sectors, true);
    change_run(img, g, v, own, old.start, old.sectors, false)
}
