// A session: its two views of the working image, and when it fits one.
#![tactic(auto)]

ghost use Rattle.std.specs.Prelude.{◌≡◌};
ghost use Rattle.counts.specs.Inner.{InLimits};
ghost use Rattle.session.specs.Views.{own_stamp, present_view};

use counts::{CrashCount, Geo, Stamp, TxCount, View};

// An open session: the card's geometry, its counts c and t, and whether t has reached its top and landed.
#[derive(Clone, Copy)]
pub struct Opened {
    pub geo: Geo,
    pub c: CrashCount,
    pub t: TxCount,
    pub worn: bool,
}

// A session: open, or `None`, closed: "all closed sessions are one value".
pub type Session = Option<Opened>;

// The stamp (c, t) under which the session changes things.
#[tactic(auto, unfolding(crate::specs::Views::own_stamp))]
pub fn own_stamp(s: Opened) -> Stamp
    ensures { result ≡ own_stamp s }
{
    Stamp { cc: s.c, txc: s.t }
}

// The view that takes word c as t; in a worn session the table as it is.
#[tactic(auto, unfolding(crate::specs::Views::present_view))]
pub fn present_view(s: Opened) -> View
    requires { InLimits s.geo }
    ensures { result ≡ present_view s }
{
    if s.worn {
        counts::as_is(s.geo)
    } else {
        View { c: s.c, t: s.t }
    }
}
