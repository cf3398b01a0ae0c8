// List for C: the functions of crate lists by the same names. Each hands its arguments on, and says what that function says; how they cross, and what a
// caller answers for, stands at the head of that crate.
#![tactic(auto)]

ghost use Rattle.std.specs.Prelude.{◌≡◌};
ghost use Rattle.card.specs.Reading.{read_list};
ghost use Rattle.store.specs.Look.{list};
ghost use Rattle.host_crossing.specs.Crossing.{decoded};

use card::{Answer, Line};

// read_list for a host.
#[unsafe(no_mangle)]
pub extern "C" fn store_read_list(card: &[u8], lines: &mut [Line]) -> Answer
    ensures { (result ≡ (read_list card.now lines.old).answer) × (lines.new ≡ (read_list card.now lines.old).lines) }
{
    lists::store_read_list(card, lines)
}

// list for a host.
#[unsafe(no_mangle)]
pub extern "C" fn store_list(session: &[u8; 24], work: &[u8], lines: &mut [Line]) -> Answer
    ensures { (result ≡ (list (decoded session.now) work.now lines.old).answer) × (lines.new ≡ (list (decoded session.now) work.now lines.old).lines) }
{
    lists::store_list(session, work, lines)
}
