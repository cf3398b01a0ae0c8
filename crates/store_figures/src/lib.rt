// Free and waiting: both figures of two views' maps, counted page by page.
#![tactic(auto)]

ghost use Rattle.std.specs.Prelude.{◌≡◌, ◌+◌, ◌*◌, ◌%◌, ◌≤◌, length};
ghost use Rattle.sectors.specs.Sectors.{sec};
ghost use Rattle.counts.specs.Stamps.{table_in};
ghost use Rattle.apages.specs.Free.{free_in, waiting_in};
ghost use Rattle.apages.specs.Index.{page_in};
ghost use Rattle.apages.specs.Inner.{PairIn};

use card_files::page_at;
use counts::{Image, View};
use sectors::sector_at;
pub use store::Figures;

// Both figures of two pages, from the ones of their words: free has a bit in neither, waiting in the second alone.
fn count(p: &[u8], q: &[u8]) -> Figures
    requires { (length p.now % 8 ≡ 0) × (length p.now ≤ 512) × (length q.now ≡ length p.now) }
    ensures figures { result ≡ record { free = free_in p.now q.now; waiting = waiting_in p.now q.now } }
    ensures few { (result.free ≤ 8 * length p.now) × (result.waiting ≤ 8 * length p.now) }
{
    let busy = apages_ones::either_set(p, q);
    Figures {
        free: 8 * (p.len() as u32) - busy,
        waiting: busy - apages_ones::set_bits(p),
    }
}

// Both figures of the maps that two views show: free is clear in both, waiting is clear in the first and set in the second.
pub fn figures_in(img: Image, v: View, w: View) -> Figures
    requires { PairIn img.geo img.bytes.now }
    ensures { result ≡ record { free = free_in (page_in img.entry.geo (table_in img.entry.geo v (sec img.entry.bytes.now)) (sec img.entry.bytes.now)) (page_in img.entry.geo (table_in img.entry.geo w (sec img.entry.bytes.now)) (sec img.entry.bytes.now)); waiting = waiting_in (page_in img.entry.geo (table_in img.entry.geo v (sec img.entry.bytes.now)) (sec img.entry.bytes.now)) (page_in img.entry.geo (table_in img.entry.geo w (sec img.entry.bytes.now)) (sec img.entry.bytes.now)) } }
{
    let mut free = 0;
    let mut waiting = 0;
    for p in 0..counts::pairs(img.geo) {
        let first = page_at(img, v, p);
        let second = page_at(img, w, p);
        let page = count(sector_at(img.bytes, first), sector_at(img.bytes, second));
        free += page.free;
        waiting += page.waiting;
    }
    Figures { free, waiting }
}
