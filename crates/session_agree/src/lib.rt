// Whether a session agrees with a working image in its sizes, its counts and its stamps.
#![tactic(auto)]

ghost use Rattle.std.specs.Prelude.{◌≡◌, ◌≤◌, length};
ghost use Rattle.words.specs.Lists.{every};
ghost use Rattle.sectors.specs.Sectors.{sec};
ghost use Rattle.counts.specs.Inner.{InLimits, LaidOut};
ghost use Rattle.directory.specs.Directory.{entries_of};
ghost use Rattle.session.specs.Fits.{sizes_ok, head_ok, word_ok, stamp_at_most, entry_at_most, index_at_most};

use counts::{Image, Stamp, TxCount};
use session::Opened;

// Whether the geometry is inside the limits, c and t are in range, and the working image has its length.
#[tactic(auto, unfolding(session::specs::Fits::sizes_ok))]
pub fn sizes_ok(s: Opened, work: &[u8]) -> bool
    ensures { result ≡ sizes_ok s work.now }
{
    counts::geo_ok(s.geo)
        && s.c.0 < counts::crash_counts(s.geo)
        && TxCount(1) <= s.t
        && s.t <= counts::top()
        && work.len() == 512 * (s.geo.s as usize)
}

// Whether sector 0 has count c + 1, the session's geometry, and zeros behind them.
pub fn head_ok(s: Opened, work: &[u8]) -> bool
    requires { 512 ≤ length work.now }
    ensures { result ≡ head_ok s (sec work.now) }
{
    u64::from(words::word_at(work, 0)) == u64::from(s.c.0) + 1
        && counts::geo_of(work) == s.geo
        && words::zeros(&work[16..512])
}

// Whether table word c is t - 1; in a worn session t and the word are at the top.
#[tactic(auto, unfolding(session::specs::Fits::word_ok))]
pub fn word_ok(worn: bool, t: TxCount, x: u32) -> bool
    ensures { result ≡ word_ok worn t.0 x }
{
    if worn {
        let top = counts::top();
        t == top && x == top.0
    } else {
        u64::from(x) + 1 == u64::from(t.0)
    }
}

// Whether a stamp, if it is at c, has txc at most t.
#[tactic(auto, unfolding(session::specs::Fits::stamp_at_most))]
fn stamp_at_most(s: Opened, x: Stamp) -> bool
    ensures { result ≡ stamp_at_most s x }
{
    x.cc != s.c || x.txc <= s.t
}

// The same of the stamp that an entry or a group of the index begins with.
#[tactic(auto, unfolding(session::specs::Fits::entry_at_most))]
fn entry_at_most(s: Opened, p: &[u8]) -> bool
    requires { 8 ≤ length p.now }
    ensures { result ≡ entry_at_most s p.now }
{
    stamp_at_most(s, counts_stamps::stamp_of(p))
}

// The same of every entry's stamp.
pub fn entries_at_most(s: Opened, work: &[u8]) -> bool
    requires { LaidOut s.geo work.now }
    ensures { result ≡ every (entry_at_most s) (entries_of s.geo (sec work.now)) }
{
    let image = Image {
        geo: s.geo,
        bytes: work,
    };
    directory::entries(image).all(|p| entry_at_most(s, p))
}

// The same of every group of the index.
pub fn index_at_most(s: Opened, ix: &[u8]) -> bool
    requires { InLimits s.geo × (length ix.now ≡ 512) }
    ensures { result ≡ index_at_most s ix.now }
{
    for p in 0..counts::pairs(s.geo) as usize {
        if !entry_at_most(s, &ix[16 * p..16 * p + 16]) {
            return false;
        }
    }
    true
}
