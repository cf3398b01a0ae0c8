// List over a lent table of lines for a host: of a session's present view, and of a card without a session.
//
// A slice crosses as a pointer and a length, a line and an answer as the words and bytes of their structs, a
// session as the 24 bytes that crate host names. No two lent buffers may overlap.
#![tactic(auto)]

ghost use Rattle.std.specs.Prelude.{◌≡◌};
ghost use Rattle.card.specs.Reading.{read_list};
ghost use Rattle.store.specs.Look.{list};
ghost use Rattle.host_crossing.specs.Crossing.{decoded};

use card::{Answer, Line};
use host_crossing::session_at;
use store_listing::{list, read_list};

// read_list for a host.
pub fn store_read_list(card: &[u8], lines: &mut [Line]) -> Answer
    ensures { (result ≡ (read_list card.now lines.old).answer) × (lines.new ≡ (read_list card.now lines.old).lines) }
{
    Answer::from(read_list(card, lines))
}

// list for a host.
pub fn store_list(session: &[u8; 24], work: &[u8], lines: &mut [Line]) -> Answer
    ensures { (result ≡ (list (decoded session.now) work.now lines.old).answer) × (lines.new ≡ (list (decoded session.now) work.now lines.old).lines) }
{
    Answer::from(list(session_at(session), work, lines))
}
