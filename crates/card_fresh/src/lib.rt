// A fresh card: its sectors, built in buffers of zeros, and make.
#![tactic(auto)]

ghost use Rattle.std.specs.Prelude.{◌≡◌, ◌+◌, ◌*◌, ◌≤◌, ◌<◌, length};
ghost use Rattle.sectors.specs.Sectors.{set_sec};
ghost use Rattle.counts.specs.Geometry.{g_p};
ghost use Rattle.counts.specs.Inner.{InLimits, LaidOut};
ghost use Rattle.apages.specs.Runs.{data_from, data_to, fresh_page};
ghost use Rattle.card.specs.Answers.{uncounted};
ghost use Rattle.card.specs.Make.{block_bytes, fresh_group, fresh_index, fresh_pages, fresh_card, make};

use apages::Index;
use card::Refusal;
use counts::{CrashCount, Geo, Stamp, TxCount};
use sectors::Sector;

// The transaction block: C = 0, S, T and D.
fn fresh_block(g: Geo) -> [u8; 512]
    ensures { result ≡ block_bytes 0 g }
{
    let mut b = [0u8; 512];
    words::put_word(&mut b, 0, 0);
    words::put_word(&mut b, 4, g.s);
    words::put_word(&mut b, 8, g.t);
    words::put_word(&mut b, 12, g.d);
    b
}

// Where the data starts in page p: F is at most 610, so it lies in page 0.
fn data_from(g: Geo, p: u32) -> usize
    requires { InLimits g }
    ensures { (result ≡ data_from g p) × (result ≤ 4096) }
{
    if p > 0 {
        0
    } else {
        counts::data_first(g).0 as usize
    }
}

// Where the data ends in page p: at S, or at the page's end.
fn data_to(g: Geo, p: u32) -> usize
    requires { InLimits g × (p < g_p g) }
    ensures { (result ≡ data_to g p) × (result ≤ 4096) }
{
    (g.s - 4096 * p).min(4096) as usize
}

// Page p with its bits below F and from S up set, in the bytes that are lent.
fn fresh_page(g: Geo, p: u32, page: &mut [u8; 512])
    requires { InLimits g × (p < g_p g) }
    ensures { page.new ≡ fresh_page g p }
{
    let f = data_from(g, p);
    let s = data_to(g, p);
    page.fill(0);
    apages::set_run(page, 0, f, true);
    apages::set_run(page, s, 4096 - s, true)
}

// Group p of a fresh index: the words 0, 0 and the two sectors of its pair.
fn fresh_group(g: Geo, p: u32) -> Index
    requires { InLimits g × (p < g_p g) }
    ensures { result ≡ fresh_group g p }
{
    let (a, b) = counts::pair(g, p);
    Index {
        stamp: Stamp {
            cc: CrashCount(0),
            txc: TxCount(0),
        },
        a,
        b,
    }
}

// The index sector: "the index holds P groups".
fn fresh_index(g: Geo) -> [u8; 512]
    requires { InLimits g }
    ensures { result ≡ fresh_index g }
{
    let mut s = [0u8; 512];
    for p in 0..counts::pairs(g) {
        apages_index::put_group(&mut s, 16 * (p as usize), fresh_group(g, p));
    }
    s
}

// Writes both pages of every pair, "showing the data free".
#[inline(never)]
fn fresh_pages(g: Geo, card: &mut [u8])
    requires { LaidOut g card.old }
    ensures { card.new ≡ fresh_pages g 0 (g_p g) card.old }
{
    let mut page = [0; 512];
    for p in 0..counts::pairs(g) {
        fresh_page(g, p, &mut page);
        let (a, b) = counts::pair(g, p);
        sectors::write_sector(card, a, &page);
        sectors::write_sector(card, b, &page);
    }
}

// Writes the transaction block.
#[inline(never)]
fn put_block(g: Geo, card: &mut [u8])
    requires { LaidOut g card.old }
    ensures { card.new ≡ set_sec card.old 0 (block_bytes 0 g) }
{
    sectors::write_sector(card, Sector(0), &fresh_block(g))
}

// Writes the index.
#[inline(never)]
fn put_index(g: Geo, card: &mut [u8])
    requires { LaidOut g card.old }
    ensures { card.new ≡ set_sec card.old (g.t + 1) (fresh_index g) }
{
    sectors::write_sector(card, Sector(g.t + 1), &fresh_index(g))
}

// Makes a fresh card of an image as long as its geometry says, with one sector's buffer at a time: each is in the frame of a call of its own.
fn make_in(g: Geo, card: &mut [u8])
    requires { LaidOut g card.old × (length card.old ≡ 512 * g.s) }
    ensures { card.new ≡ fresh_card g }
{
    card.fill(0);
    put_block(g, card);
    put_index(g, card);
    fresh_pages(g, card)
}

// Makes a fresh card: refused with 1, or done.
pub fn make(g: Geo, card: &mut [u8]) -> Result<(), Refusal>
    ensures { (uncounted result ≡ (make g card.old).answer) × (card.new ≡ (make g card.old).image) }
{
    if !counts::geo_ok(g) || card.len() != 512 * (g.s as usize) {
        return Err(Refusal::Shape);
    }
    make_in(g, card);
    Ok(())
}
