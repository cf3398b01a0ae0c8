// Directory entries of 128 bytes: a stamp, a name, and two versions of a file.
#![tactic(auto)]

ghost use Rattle.std.specs.Prelude.{◌≡◌, ◌+◌, ◌≤◌, length, take, drop};
ghost use Rattle.words.specs.Lists.{splice, pad};
ghost use Rattle.entries.specs.Entries.{version_of, version_bytes, entry_bytes, is_absent};
ghost use Rattle.entries.specs.Inner.{changed_as};

use counts::{Stamp, Standing};
use sectors::Sector;

// Where a file's content lies, and how long it is.
#[repr(C)]
#[derive(Clone, Copy)]
pub struct Run {
    pub start: Sector,
    pub sectors: u32,
    pub bytes: u32,
}

// An enum of its own and no Option<Run>: the forms that the project fixes name it so (docs/CONTRACTS.md, "Forms").
#[derive(Clone, Copy)]
pub enum Version {
    Absent,
    Present(Run),
}

#[derive(Clone, Copy)]
pub struct Entry {
    pub stamp: Stamp,
    pub size: u32,
    pub name: [u8; 32],
    pub new: Version,
    pub old: Version,
}

// ---- the codec

// The version that 16 bytes are.
#[tactic(auto, unfolding(crate::specs::Entries::version_of))]
pub fn version_of(v: &[u8]) -> Version
    requires { length v.now ≡ 16 }
    ensures { result ≡ version_of v.now }
{
    if words::word_at(v, 0) == 0 {
        return Version::Absent;
    }
    Version::Present(Run {
        start: Sector(words::word_at(v, 4)),
        sectors: words::word_at(v, 8),
        bytes: words::word_at(v, 12),
    })
}

// Stores the four words of a version from `at` on.
fn put_version(s: &mut [u8], at: usize, v: Version)
    requires { at + 16 ≤ length s.old }
    ensures { s.new ≡ splice s.old at (version_bytes v) }
{
    let (state, start, sectors, bytes) = match v {
        Version::Absent => (0, 0, 0, 0),
        Version::Present(r) => (1, r.start.0, r.sectors, r.bytes),
    };
    words::put_word(s, at, state);
    words::put_word(s, at + 4, start);
    words::put_word(s, at + 8, sectors);
    words::put_word(s, at + 12, bytes);
}

// The 32 bytes from `at` on.
pub fn name_at(s: &[u8], at: usize) -> [u8; 32]
    requires { at + 32 ≤ length s.now }
    ensures { result ≡ take 32 (drop at s.now) }
{
    let mut name = [0; 32];
    name.copy_from_slice(&s[at..at + 32]);
    name
}

// A name with zeros behind it.
fn padded(name: &[u8]) -> [u8; 32]
    requires { length name.now ≤ 32 }
    ensures { result ≡ pad 32 name.now }
{
    let mut bytes = [0; 32];
    bytes[..name.len()].copy_from_slice(name);
    bytes
}

// Writes an entry over 128 bytes.
pub fn fill_entry(p: &mut [u8], e: Entry)
    requires { length p.old ≡ 128 }
    ensures { p.new ≡ entry_bytes e }
{
    words::put_word(p, 0, e.stamp.cc.0);
    words::put_word(p, 4, e.stamp.txc.0);
    words::put_word(p, 8, e.size);
    words::put_bytes(p, 12, &e.name);
    put_version(p, 44, e.new);
    put_version(p, 60, e.old);
    p[76..].fill(0);
}

// ---- changing an entry

// An entry with a name, a new version and the session's own stamp, by how its stamp stood.
#[tactic(auto, unfolding(crate::specs::Inner::changed_as))]
pub fn changed(st: Standing, own: Stamp, e: Entry, name: &[u8], v: Version) -> Entry
    requires { length name.now ≤ 32 }
    ensures { result ≡ changed_as st own e name.now v }
{
    Entry {
        stamp: own,
        size: name.len() as u32,
        name: padded(name),
        new: v,
        old: st.becomes_old(e.new, e.old),
    }
}

// Whether a version is absent.
pub fn is_absent(v: Version) -> bool
    ensures { result ≡ is_absent v }
{
    matches!(v, Version::Absent)
}
