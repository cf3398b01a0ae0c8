// The files that a view shows: their runs and lines, and get over one view.
#![tactic(auto)]

ghost use Rattle.std.specs.Prelude.{◌≡◌, ◌+◌, ◌*◌, ◌≤◌, ◌<◌, length, slice_get};
ghost use Rattle.words.specs.Lists.{splice};
ghost use Rattle.sectors.specs.Sectors.{sec};
ghost use Rattle.counts.specs.Geometry.{g_p};
ghost use Rattle.counts.specs.Stamps.{table_in};
ghost use Rattle.directory.specs.Directory.{entries_of};
ghost use Rattle.apages.specs.Bits.{clear_bits};
ghost use Rattle.apages.specs.Inner.{PairIn};
ghost use Rattle.apages.specs.Index.{group_of, index_in, page_in, shown_page};
ghost use Rattle.card.specs.Answers.{counted};
ghost use Rattle.card.specs.Files.{files_of, run_of, run_at, content_of};
ghost use Rattle.card.specs.Inner.{RunsOk, IsGot, get_at, get_in};
ghost use Rattle.card_files.specs.Inner.{shows, line_shown, IsNext};

use card::{Line, Refusal};
use counts::{Image, View};
use entries::{Run, Version};
use sectors::Sector;

// ---- what an entry shows

// The run of a version; an absent one has none.
#[tactic(auto, unfolding(card::specs::Files::run_of))]
pub fn run_of(v: Version) -> Run
    ensures { result ≡ run_of v }
{
    match v {
        Version::Absent => Run {
            start: Sector(0),
            sectors: 0,
            bytes: 0,
        },
        Version::Present(run) => run,
    }
}

// The run that entry j shows.
#[tactic(auto, unfolding(card::specs::Files::run_at))]
pub fn run_at(card: Image, v: View, j: usize) -> Run
    requires { j < 4 * card.geo.d }
    ensures { result ≡ run_at card.entry.geo (table_in card.entry.geo v (sec card.entry.bytes.now)) card.entry.bytes.now j }
{
    run_of(entries_shown::shown(card, v, directory::entry(card, j)))
}

// Whether an entry shows a file.
fn shows(card: Image, v: View, p: &[u8]) -> bool
    requires { length p.now ≡ 128 }
    ensures { result ≡ shows (table_in card.entry.geo v (sec card.entry.bytes.now)) p.now }
{
    !entries::is_absent(entries_shown::shown(card, v, p))
}

// The line of an entry.
#[tactic(auto, unfolding(entries::specs::Entries::name_bytes))]
fn line_of(card: Image, v: View, p: &[u8]) -> Line
    requires { length p.now ≡ 128 }
    ensures { result ≡ line_shown (table_in card.entry.geo v (sec card.entry.bytes.now)) p.now }
{
    Line {
        size: words::word_at(p, 8),
        name: entries::name_at(p, 12),
        run: run_of(entries_shown::shown(card, v, p)),
    }
}

// ---- the files

// How many files a view shows.
pub fn file_count(card: Image, v: View) -> u32
    ensures { result ≡ length (files_of (table_in card.entry.geo v (sec card.entry.bytes.now)) (entries_of card.entry.geo (sec card.entry.bytes.now))) }
{
    directory::entries(card)
        .filter(|p| shows(card, v, p))
        .count() as u32
}

// The line at a position, in entry order.
pub fn line_in(card: Image, v: View, i: u32) -> Option<Line>
    ensures { result ≡ slice_get (files_of (table_in card.entry.geo v (sec card.entry.bytes.now)) (entries_of card.entry.geo (sec card.entry.bytes.now))) i }
{
    let p = directory::entries(card)
        .filter(|p| shows(card, v, p))
        .nth(i as usize)?;
    Some(line_of(card, v, p))
}

// A line of a list, and the entry after its own.
#[derive(Clone, Copy)]
pub struct Next {
    pub line: Line,
    pub after: usize,
}

// The line of the first entry that shows a file, from an entry on.
pub fn next_line(card: Image, v: View, from: usize) -> Option<Next>
    ensures { IsNext (table_in card.entry.geo v (sec card.entry.bytes.now)) (entries_of card.entry.geo (sec card.entry.bytes.now)) from result }
{
    for j in from..4 * (card.geo.d as usize) {
        let p = directory::entry(card, j);
        if shows(card, v, p) {
            let line = line_of(card, v, p);
            return Some(Next { line, after: j + 1 });
        }
    }
    None
}

// ---- the bitmap

// The sector of the page of pair p that a view shows.
pub fn page_at(card: Image, v: View, p: u32) -> Sector
    requires { p < g_p card.geo }
    ensures { result.0 ≡ shown_page (table_in card.entry.geo v (sec card.entry.bytes.now)) (group_of (index_in card.entry.geo (sec card.entry.bytes.now)) p) }
{
    let at = apages_index::group_at(card.geo, p);
    apages_index::shown_page(card, v, &card.bytes[at..at + 16])
}

// How many bits of the map that a view shows are clear: page by page.
pub fn clear_in(card: Image, v: View) -> u32
    requires { PairIn card.geo card.bytes.now }
    ensures { result ≡ clear_bits (page_in card.entry.geo (table_in card.entry.geo v (sec card.entry.bytes.now)) (sec card.entry.bytes.now)) }
{
    let mut clear = 0;
    for p in 0..counts::pairs(card.geo) {
        let page = page_at(card, v, p);
        clear += apages_ones::count_clear(sectors::sector_at(card.bytes, page));
    }
    clear
}

// ---- get

// Fills the first bytes of the output with the content of a run.
fn copy_content(img: &[u8], r: Run, out: &mut [u8])
    requires { ((512 * r.start.0 + r.bytes ≤ length img.now) × (r.bytes ≤ 512 * r.sectors)) × (r.bytes ≤ length out.old) }
    ensures { out.new ≡ splice out.old 0 (content_of img.now r) }
{
    let at = r.start.offset();
    let n = r.bytes as usize;
    out[..n].copy_from_slice(&img[at..at + n])
}

// Gets the file of entry j: refused with 10, or its bytes.
fn get_at(img: Image, v: View, j: usize, out: &mut [u8]) -> Result<u32, Refusal>
    requires { (length img.bytes.now ≡ 512 * img.geo.s) × ((j < 4 * img.geo.d) × RunsOk img.geo (table_in img.geo v (sec img.bytes.now)) (entries_of img.geo (sec img.bytes.now))) }
    ensures { IsGot (counted result) out.new (get_at img.entry.geo (table_in img.entry.geo v (sec img.entry.bytes.now)) img.entry.bytes.now out.old j) }
{
    let run = run_at(img, v, j);
    if out.len() < (run.bytes as usize) {
        return Err(Refusal::ShortOutput);
    }
    copy_content(img.bytes, run, out);
    Ok(run.bytes)
}

// Gets the file of a name in a view: refused with 5, 6 or 10, or its bytes.
pub fn get_in(img: Image, v: View, name: &[u8], out: &mut [u8]) -> Result<u32, Refusal>
    requires { (length img.bytes.now ≡ 512 * img.geo.s) × RunsOk img.geo (table_in img.geo v (sec img.bytes.now)) (entries_of img.geo (sec img.bytes.now)) }
    ensures { IsGot (counted result) out.new (get_in img.entry.geo (table_in img.entry.geo v (sec img.entry.bytes.now)) img.entry.bytes.now name.now out.old) }
{
    if !entries_names::good_name(name) {
        return Err(Refusal::BadName);
    }
    let j = directory_search::find_name(img, v, v, name).ok_or(Refusal::NoFile)?;
    get_at(img, v, j, out)
}
