// What crosses to a host: a session as 24 bytes, what reading a card gives as 16, and what free gives as 8.
#![tactic(auto)]

ghost use Rattle.std.specs.Prelude.{◌≡◌, ◌*◌, length};
ghost use Rattle.std.specs.List.{flat_map};
ghost use Rattle.words.specs.Bytes.{word_bytes};
ghost use Rattle.card.specs.Answers.{reported_of};
ghost use Rattle.store.specs.Given.{synced_of, unmounted_of, room_of};
ghost use Rattle.host_crossing.specs.Crossing.{opened_of, decoded, state_of, opened_bytes, encoded, report_bytes, room_bytes, roomed, kept_by};

use card::{Answer, Contents, Refusal};
use counts::{CrashCount, Geo, TxCount};
use session::{Opened, Session};
use store::{Figures, Synced};
use words::word_at;

// ---- a session

// An open session; one with a state above 2 never fits.
#[tactic(auto, unfolding(crate::specs::Crossing::opened_of))]
fn opened_of(state: u32, geo: Geo, c: CrashCount, t: TxCount) -> Opened
    ensures { result ≡ opened_of state geo c.0 t.0 }
{
    Opened {
        geo,
        c,
        t: if 2 < state { TxCount(0) } else { t },
        worn: state == 2,
    }
}

// The session that a host's 24 bytes hold, six words.
#[tactic(auto, unfolding(crate::specs::Crossing::decoded, crate::specs::Crossing::session_of))]
pub fn session_at(b: &[u8; 24]) -> Session
    ensures { result ≡ decoded b.now }
{
    let state = word_at(b, 0);
    if state == 0 {
        return None;
    }
    let geo = Geo {
        s: word_at(b, 4),
        t: word_at(b, 8),
        d: word_at(b, 12),
    };
    Some(opened_of(
        state,
        geo,
        CrashCount(word_at(b, 16)),
        TxCount(word_at(b, 20)),
    ))
}

// The bytes of words, one after another.
fn bytes_of<const N: usize>(words: &[u32]) -> [u8; N]
    requires { N ≡ 4 * length words.now }
    ensures { result ≡ flat_map word_bytes words.now }
{
    let mut b = [0; N];
    for (i, word) in words.iter().enumerate() {
        words::put_word(&mut b, 4 * i, *word);
    }
    b
}

// 2 where the session is worn, else 1.
#[tactic(auto, unfolding(crate::specs::Crossing::state_of))]
fn state_of(worn: bool) -> u32
    ensures { result ≡ state_of worn }
{
    if worn { 2 } else { 1 }
}

// The 24 bytes of an open session.
#[tactic(auto, unfolding(crate::specs::Crossing::opened_bytes, words::specs::Bytes::word_bytes))]
fn opened_bytes(o: Opened) -> [u8; 24]
    ensures { result ≡ opened_bytes o }
{
    bytes_of(&[state_of(o.worn), o.geo.s, o.geo.t, o.geo.d, o.c.0, o.t.0])
}

// The 24 bytes of a session.
#[tactic(auto, unfolding(crate::specs::Crossing::encoded))]
pub fn encoded(session: Session) -> [u8; 24]
    ensures { result ≡ encoded session }
{
    session.map_or([0; 24], opened_bytes)
}

// ---- what a call gives

// The 16 bytes of what reading a card gives.
#[tactic(auto, unfolding(crate::specs::Crossing::report_bytes, words::specs::Bytes::word_bytes))]
pub fn report_bytes(x: Contents) -> [u8; 16]
    ensures { result ≡ report_bytes (reported_of (Ok x)) }
{
    bytes_of(&[x.c.0, x.n, x.files, x.free])
}

// The 8 bytes of free's two figures.
#[tactic(auto, unfolding(crate::specs::Crossing::room_bytes, words::specs::Bytes::word_bytes))]
fn room_bytes(f: Figures) -> [u8; 8]
    ensures { result ≡ room_bytes (room_of (Ok f)) }
{
    bytes_of(&[f.free, f.waiting])
}

// Free's figures go to the host's bytes where the number is 0; a refusal leaves them as lent.
#[tactic(auto, unfolding(crate::specs::Crossing::roomed))]
pub fn give_room(number: u32, figures: Figures, out: &mut [u8; 8]) -> u32
    ensures { (result ≡ number) × (out.new ≡ roomed (record { number = number; free = figures.free; waiting = figures.waiting }) out.old) }
{
    if number == 0 {
        *out = room_bytes(figures);
    }
    number
}

// The same of what free gives.
pub fn give_figures(r: Result<Figures, Refusal>, out: &mut [u8; 8]) -> u32
    ensures { (result ≡ (room_of r).number) × (out.new ≡ roomed (room_of r) out.old) }
{
    let none = Figures {
        free: 0,
        waiting: 0,
    };
    give_room(card::number(r), r.unwrap_or(none), out)
}

// The session that a call gives goes to the host's bytes where its number is 0; a refusal leaves them as lent.
#[tactic(auto, unfolding(crate::specs::Crossing::kept_by))]
pub fn keep(answer: Answer, next: Session, session: &mut [u8; 24]) -> Answer
    ensures { (result ≡ answer) × (session.new ≡ kept_by answer next session.old) }
{
    if answer.number == 0 {
        *session = encoded(next);
    }
    answer
}

// The same of what sync gives.
#[tactic(auto, unfolding(crate::specs::Crossing::kept_by, card::specs::Plan::done, card::specs::Plan::refused))]
pub fn keep_synced(r: Result<Synced, Refusal>, session: &mut [u8; 24]) -> Answer
    ensures { (result ≡ (synced_of (decoded session.old) r).answer) × (session.new ≡ kept_by (synced_of (decoded session.old) r).answer (synced_of (decoded session.old) r).session session.old) }
{
    let next = r.ok().map(|synced| synced.session);
    keep(Answer::from(r.map(|synced| synced.written)), next, session)
}

// The same of what unmount gives: with 0 the closed session.
#[tactic(auto, unfolding(crate::specs::Crossing::kept_by, card::specs::Plan::done, card::specs::Plan::refused))]
pub fn close(r: Result<u32, Refusal>, session: &mut [u8; 24]) -> Answer
    ensures { (result ≡ (unmounted_of (decoded session.old) r).answer) × (session.new ≡ kept_by (unmounted_of (decoded session.old) r).answer (unmounted_of (decoded session.old) r).session session.old) }
{
    keep(Answer::from(r), None, session)
}
