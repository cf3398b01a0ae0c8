// Reading a card without a session: the report, the line at a position, and get.
#![tactic(auto)]

ghost use Rattle.std.specs.Prelude.{◌≡◌, true, Ok};
ghost use Rattle.card.specs.Answers.{counted, reported_of, lined_of};
ghost use Rattle.card.specs.Inner.{IsGot};
ghost use Rattle.card.specs.Sound.{shape_ok, sound};
ghost use Rattle.card.specs.Reading.{read, read_line, read_get};

use card::{Contents, Line, Refusal};
use card_files::{clear_in, file_count, get_in, line_in};
use card_sound::judged;
use counts::{CrashCount, Image};

// Reads a card that is sound.
fn read_in(card: &[u8]) -> Contents
    requires { (shape_ok card.now ≡ true) × (sound card.now ≡ true) }
    ensures { reported_of (Ok result) ≡ read card.now }
{
    let g = counts::geo_of(card);
    let v = counts::as_is(g);
    let image = Image {
        geo: g,
        bytes: card,
    };
    Contents {
        c: CrashCount(words::word_at(card, 0)),
        n: counts::crash_counts(g),
        files: file_count(image, v),
        free: clear_in(image, v),
    }
}

// Reads a card: C, N, the file count and the clear bits shown; refused with 1 or 2.
pub fn read(card: &[u8]) -> Result<Contents, Refusal>
    ensures { reported_of result ≡ read card.now }
{
    judged(card)?;
    Ok(read_in(card))
}

// The line at a position of a card that is sound.
pub fn read_line_in(card: &[u8], i: u32) -> Option<Line>
    requires { (shape_ok card.now ≡ true) × (sound card.now ≡ true) }
    ensures { lined_of (Ok result) ≡ read_line card.now i }
{
    let g = counts::geo_of(card);
    let v = counts::as_is(g);
    let image = Image {
        geo: g,
        bytes: card,
    };
    line_in(image, v, i)
}

// The line at a position of a card; refused with 1 or 2.
pub fn read_line(card: &[u8], i: u32) -> Result<Option<Line>, Refusal>
    ensures { lined_of result ≡ read_line card.now i }
{
    judged(card)?;
    Ok(read_line_in(card, i))
}

// Gets a file of a card that is sound.
fn read_get_in(card: &[u8], name: &[u8], out: &mut [u8]) -> Result<u32, Refusal>
    requires { (shape_ok card.now ≡ true) × (sound card.now ≡ true) }
    ensures { IsGot (counted result) out.new (read_get card.now name.now out.old) }
{
    let g = counts::geo_of(card);
    let v = counts::as_is(g);
    let image = Image {
        geo: g,
        bytes: card,
    };
    get_in(image, v, name, out)
}

// Gets a file of a card; refused with 1, 2, 5, 6 or 10.
pub fn read_get(card: &[u8], name: &[u8], out: &mut [u8]) -> Result<u32, Refusal>
    ensures { (counted result ≡ (read_get card.now name.now out.old).answer)
        × (out.new ≡ (read_get card.now name.now out.old).out) }
{
    judged(card)?;
    read_get_in(card, name, out)
}
