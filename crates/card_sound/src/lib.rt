// When a card is sound: its shape, its table and its views.
#![tactic(auto)]

ghost use Rattle.std.specs.Prelude.{◌≡◌, true, OnOk, IfErr};
ghost use Rattle.sectors.specs.Sectors.{sec};
ghost use Rattle.counts.specs.Geometry.{count_of};
ghost use Rattle.counts.specs.Stamps.{table_in};
ghost use Rattle.card.specs.Answers.{number_of};
ghost use Rattle.card.specs.Plan.{Plan, refuse};
ghost use Rattle.card.specs.Reading.{read_plan};
ghost use Rattle.card.specs.Sound.{view_ok, counts_ok, sound_in, shape_ok, sound};

use card::Refusal;
use counts::{CrashCount, Image, View};
use sectors::Sector;

// Whether a view passes the index, entry and bitmap rules; a dead stamp has its count below the bound. What the scratch holds is of no use before or after.
pub fn view_ok(card: Image, v: View, bound: CrashCount, scratch: &mut [u8; 128]) -> bool
    ensures { result ≡ view_ok card.entry.geo bound.0 (table_in card.entry.geo v (sec card.entry.bytes.now)) (sec card.entry.bytes.now) }
{
    let index = sectors::sector_at(card.bytes, Sector(card.geo.t + 1));
    apages_index::index_ok(card, v, bound, index)
        && directory_rules::entries_ok(card, v, bound)
        && card_tally::pages_ok(card.bytes, card.geo, v, scratch)
}

// Whether C is at most N, the rest of sector 0 is zeros and the table's words are in order.
fn counts_ok(card: Image, c: CrashCount) -> bool
    requires { c.0 ≡ count_of (sec card.bytes.now) }
    ensures { result ≡ counts_ok card.entry.geo (sec card.entry.bytes.now) }
{
    words::zeros(&card.bytes[16..512])
        && c.0 <= counts::crash_counts(card.geo)
        && counts_table::table_ok(card, c)
}

// Whether an image is sound by a geometry.
fn sound_in(card: Image) -> bool
    ensures { result ≡ sound_in card.entry.geo (sec card.entry.bytes.now) }
{
    let c = CrashCount(words::word_at(card.bytes, 0));
    let v = counts::as_is(card.geo);
    let mut scratch = [0; 128];
    counts_ok(card, c)
        && view_ok(card, v, c, &mut scratch)
        && directory_rules::names_ok(card, v, v, &mut scratch)
}

// Whether an image stores a geometry inside the limits and has 512·S bytes for its S.
pub fn shape_ok(card: &[u8]) -> bool
    ensures { result ≡ shape_ok card.now }
{
    if card.len() < 512 {
        return false;
    }
    let g = counts::geo_of(card);
    counts::geo_ok(g) && card.len() == 512 * (g.s as usize)
}

// Whether a card of the right shape is sound.
pub fn sound(card: &[u8]) -> bool
    requires { shape_ok card.now ≡ true }
    ensures { result ≡ sound card.now }
{
    sound_in(Image {
        geo: counts::geo_of(card),
        bytes: card,
    })
}

// What every reading call tests first: refused with 1 for its shape, with 2 where it is not sound.
pub fn judged(card: &[u8]) -> Result<(), Refusal>
    ensures passed { OnOk result ((shape_ok card.now ≡ true) × (sound card.now ≡ true)) }
    ensures refused { IfErr result (λ r. (p : Plan) → read_plan card.now p ≡ refuse (number_of r)) }
{
    if !shape_ok(card) {
        return Err(Refusal::Shape);
    }
    if !sound(card) {
        return Err(Refusal::Unsound);
    }
    Ok(())
}
