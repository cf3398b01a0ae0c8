// List over a lent table of lines: of a session's present view, and of a card without a session.
//
// A call in a session is two functions. The inner one, named `_fitting`, makes every test but 2 and requires instead that an open session fits; the public
// one is that test and then the inner one.
#![tactic(auto)]

ghost use Rattle.std.specs.Prelude.{◌≡◌, ◌≤◌, Ok, length};
ghost use Rattle.card.specs.Answers.{counted};
ghost use Rattle.card.specs.Reading.{read_list};
ghost use Rattle.store.specs.Inner.{FitOf};
ghost use Rattle.store.specs.Look.{list};
ghost use Rattle.store_listing.specs.Listings.{listing_of, files_at, listing_in, session_listing, card_listing, filled_to};
ghost use Rattle.store_listing.specs.Inner.{HasRoom};

use card::{Line, Refusal};
use card_files::{file_count, next_line};
use card_sound::judged;
use counts::{Geo, Image, View};
use session::Session;
use session_unfit::unfit;

// The view whose files are listed, and how many they are.
#[derive(Clone, Copy)]
pub struct ViewList {
    pub count: u32,
    pub geo: Geo,
    pub view: View,
}

// The listing of a view for a table of `room` lines: refused with 10 where it is too short.
fn listing_in(img: Image, v: View, room: usize) -> Result<ViewList, Refusal>
    ensures { listing_of result ≡ listing_in img.entry.geo v img.entry.bytes.now room }
{
    let n = file_count(img, v);
    if room < (n as usize) {
        return Err(Refusal::ShortOutput);
    }
    Ok(ViewList {
        count: n,
        geo: img.geo,
        view: v,
    })
}

// The listing of the present view of a session that fits; refused with 4 or 10.
fn session_listing(session: Session, work: &[u8], room: usize) -> Result<ViewList, Refusal>
    requires { FitOf session work.now }
    ensures { listing_of result ≡ session_listing session work.now room }
{
    let s = session.ok_or(Refusal::Closed)?;
    let image = Image {
        geo: s.geo,
        bytes: work,
    };
    listing_in(image, session::present_view(s), room)
}

// The listing of a card: refused with "1, 2, 10".
fn card_listing(card: &[u8], room: usize) -> Result<ViewList, Refusal>
    ensures { listing_of result ≡ card_listing card.now room }
{
    judged(card)?;
    let g = counts::geo_of(card);
    let image = Image {
        geo: g,
        bytes: card,
    };
    listing_in(image, counts::as_is(g), room)
}

// Fills the first lines of the table, one line a file, each from the entry after the last one's; later lines stay.
fn fill_lines(img: &[u8], l: ViewList, lines: &mut [Line])
    requires { HasRoom (listing_of (Ok l)) img.now (length lines.old) × (l.count ≤ length (files_at (listing_of (Ok l)) img.now)) }
    ensures { lines.new ≡ filled_to (files_at (listing_of (Ok l)) img.now) l.count lines.old }
{
    let mut from = 0;
    for i in 0..l.count as usize {
        let image = Image {
            geo: l.geo,
            bytes: img,
        };
        let next = next_line(image, l.view, from).unwrap();
        lines[i] = next.line;
        from = next.after;
    }
}

// List in a session that fits: every test of list but 2, in its order.
pub fn list_fitting(session: Session, work: &[u8], lines: &mut [Line]) -> Result<u32, Refusal>
    requires { FitOf session work.now }
    ensures { (counted result ≡ (list session work.now lines.old).answer) × (lines.new ≡ (list session work.now lines.old).lines) }
{
    let l = session_listing(session, work, lines.len())?;
    fill_lines(work, l, lines);
    Ok(l.count)
}

// "list 4, 2, 10"
pub fn list(session: Session, work: &[u8], lines: &mut [Line]) -> Result<u32, Refusal>
    ensures { (counted result ≡ (list session work.now lines.old).answer) × (lines.new ≡ (list session work.now lines.old).lines) }
{
    if unfit(session, work) {
        return Err(Refusal::Unsound);
    }
    list_fitting(session, work, lines)
}

// "its own list (1, 2, 10)"
pub fn read_list(card: &[u8], lines: &mut [Line]) -> Result<u32, Refusal>
    ensures { (counted result ≡ (read_list card.now lines.old).answer) × (lines.new ≡ (read_list card.now lines.old).lines) }
{
    let l = card_listing(card, lines.len())?;
    fill_lines(card, l, lines);
    Ok(l.count)
}
