// The fit test: whether a session fits a working image.
#![tactic(auto)]

ghost use Rattle.std.specs.Prelude.{◌≡◌};
ghost use Rattle.sectors.specs.Sectors.{sec};
ghost use Rattle.counts.specs.Inner.{LaidOut};
ghost use Rattle.session.specs.Fits.{table_fits, views_fit, stamps_fit, fits};

use counts::{CrashCount, Image};
use sectors::Sector;
use session::Opened;

// Whether the counts and the table of the working image are the session's.
#[tactic(auto, unfolding(session::specs::Fits::table_fits))]
fn table_fits(s: Opened, work: &[u8]) -> bool
    requires { LaidOut s.geo work.now }
    ensures { result ≡ table_fits s (sec work.now) }
{
    if !session_agree::head_ok(s, work) {
        return false;
    }
    let image = Image {
        geo: s.geo,
        bytes: work,
    };
    let past = counts_table::zero_past(image, s.c);
    session_agree::word_ok(s.worn, s.t, counts::table_word(image, s.c))
        && counts_table::table_max(image, s.c, past)
        && past
}

// Whether both views pass, and no name is present in either view of two entries.
fn views_fit(s: Opened, work: &[u8]) -> bool
    requires { LaidOut s.geo work.now }
    ensures { result ≡ views_fit s (sec work.now) }
{
    let present = session::present_view(s);
    let cut = counts::as_is(s.geo);
    let n = CrashCount(counts::crash_counts(s.geo));
    let image = Image {
        geo: s.geo,
        bytes: work,
    };
    let mut scratch = [0; 128];
    card_sound::view_ok(image, present, s.c, &mut scratch)
        && card_sound::view_ok(image, cut, n, &mut scratch)
        && directory_rules::names_ok(image, present, cut, &mut scratch)
}

// Whether every stamp at c has txc at most t.
fn stamps_fit(s: Opened, work: &[u8]) -> bool
    requires { LaidOut s.geo work.now }
    ensures { result ≡ stamps_fit s (sec work.now) }
{
    let index = sectors::sector_at(work, Sector(s.geo.t + 1));
    session_agree::entries_at_most(s, work) && session_agree::index_at_most(s, index)
}

// Whether a session fits a working image.
#[tactic(auto, unfolding(session::specs::Fits::fits, session::specs::Fits::fits_in))]
pub fn fits(s: Opened, work: &[u8]) -> bool
    ensures { result ≡ fits s work.now }
{
    session_agree::sizes_ok(s, work)
        && table_fits(s, work)
        && views_fit(s, work)
        && stamps_fit(s, work)
}
