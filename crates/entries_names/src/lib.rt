// Names: when one is good, and when an entry has it.
#![tactic(auto)]

ghost use Rattle.std.specs.Prelude.{◌≡◌, ◌*◌, ◌%◌, length};
ghost use Rattle.words.specs.Lists.{every, eq_list};
ghost use Rattle.entries.specs.Entries.{good_byte, good_name, name_of, name_ok};
ghost use Rattle.entries_names.specs.Inner.{hash_step, hash_of};

// ---- names

// Whether every byte may stand in a name. It does not stop early, as `words::zeros`.
fn good_bytes(s: &[u8]) -> bool
    ensures { result ≡ every good_byte s.now }
{
    let mut ok = true;
    for b in s {
        ok &= (33..=126).contains(b);
    }
    ok
}

// Whether a name has 1 to 32 bytes, each 33 to 126.
#[tactic(auto, unfolding(entries::specs::Entries::good_name))]
pub fn good_name(n: &[u8]) -> bool
    ensures { result ≡ good_name n.now }
{
    (1..=32).contains(&n.len()) && good_bytes(n)
}

// Whether the first n of an entry's name bytes are a good name and the others are 0.
#[tactic(auto, unfolding(entries::specs::Entries::name_ok))]
pub fn name_ok(n: u32, b: &[u8]) -> bool
    requires { length b.now ≡ 32 }
    ensures { result ≡ name_ok n b.now }
{
    if !(1..=32).contains(&n) {
        return false;
    }
    let (name, rest) = b.split_at(n as usize);
    good_bytes(name) && words::zeros(rest)
}

// The name of an entry.
fn name_of(p: &[u8]) -> &[u8]
    requires { length p.now ≡ 128 }
    ensures { result.now ≡ name_of p.now }
{
    let n = words::word_at(p, 8).min(32) as usize;
    &p[12..12 + n]
}

// Whether two names are the same. Where the lengths or the last bytes differ, no more is looked at.
fn same_bytes(n: &[u8], m: &[u8]) -> bool
    ensures { result ≡ eq_list n.now m.now }
{
    n.len() == m.len() && n.last() == m.last() && words::same(n, m)
}

// Whether two entries have the same name.
pub fn same_name(p: &[u8], q: &[u8]) -> bool
    requires { (length p.now ≡ 128) × (length q.now ≡ 128) }
    ensures { result ≡ eq_list (name_of p.now) (name_of q.now) }
{
    same_bytes(name_of(p), name_of(q))
}

// Whether an entry has that name.
pub fn has_name(n: &[u8], p: &[u8]) -> bool
    requires { length p.now ≡ 128 }
    ensures { result ≡ eq_list n.now (name_of p.now) }
{
    same_bytes(n, name_of(p))
}

// ---- the hash of a name

// A product modulo 2 to the 32, through 64-bit numbers.
fn times_factor(x: u32) -> u32
    ensures { result ≡ x * 16777619 % 4294967296 }
{
    (u64::from(x) * 16777619 % 4294967296) as u32
}

// The hash with one byte more.
#[tactic(auto, unfolding(crate::specs::Inner::hash_step))]
fn hash_step(h: u32, b: u8) -> u32
    ensures { result ≡ hash_step h b }
{
    times_factor(h ^ u32::from(b))
}

// "The hash is 32-bit FNV-1a", folded over the bytes of a name.
fn hash(n: &[u8]) -> u32
    ensures { result ≡ hash_of n.now }
{
    n.iter().fold(2166136261, |h, b| hash_step(h, *b))
}

// The hash of an entry's name.
pub fn hash_at(p: &[u8]) -> u32
    requires { length p.now ≡ 128 }
    ensures { result ≡ hash_of (name_of p.now) }
{
    hash(name_of(p))
}
