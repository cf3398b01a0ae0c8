// The ones of a page: counted by words of 64 bits, and whether a run of bits is set.
#![tactic(auto)]

ghost use Rattle.std.specs.Prelude.{◌≡◌, true, ◌+◌, ◌*◌, ◌/◌, ◌%◌, ◌≤◌, ◌<◌, length};
ghost use Rattle.std.specs.Simd.{first_chunks};
ghost use Rattle.apages.specs.Bits.{bit_at, clear_bits};
ghost use Rattle.apages.specs.Inner.{either};
ghost use Rattle.apages.specs.Ones.{word64_at, set_bits, all_set};

// ---- counted

// The words of a page, of eight bytes each.
fn words_of(p: &[u8]) -> &[[u8; 8]]
    ensures { result.now ≡ first_chunks 8 (length p.now / 8) p.now }
{
    p.as_chunks().0
}

// Eight bytes as one word, least byte first.
fn word64(w: &[u8; 8]) -> u64
    ensures { result ≡ word64_at w.now 0 }
{
    u64::from_le_bytes(*w)
}

// "the count of ones in the bitmap's words": how many bits of a page are set.
pub fn set_bits(p: &[u8]) -> u32
    requires { (length p.now % 8 ≡ 0) × (length p.now ≤ 512) }
    ensures { result ≡ set_bits p.now }
{
    words_of(p).iter().map(|w| word64(w).count_ones()).sum()
}

// How many bits are set in one of two pages, or in both.
pub fn either_set(p: &[u8], q: &[u8]) -> u32
    requires { (length p.now % 8 ≡ 0) × (length p.now ≤ 512) × (length q.now ≡ length p.now) }
    ensures { result ≡ set_bits (either p.now q.now) }
{
    words_of(p)
        .iter()
        .zip(words_of(q))
        .map(|(v, w)| (word64(v) | word64(w)).count_ones())
        .sum()
}

// How many bits are clear: those that are not set.
pub fn count_clear(p: &[u8]) -> u32
    requires { (length p.now % 8 ≡ 0) × (length p.now ≤ 512) }
    ensures { result ≡ clear_bits p.now }
{
    8 * (p.len() as u32) - set_bits(p)
}

// ---- a run

// How many of the next sectors, from n on and below the end, are seen to be set: those of a whole word, of a whole byte, or one, or none.
fn next_set(p: &[u8], n: usize, end: usize) -> usize
    requires { (length p.now ≤ 512) × (n < end) × (end ≤ 8 * length p.now) }
    ensures { (all_set p.now n result ≡ true) × (n + result ≤ end) × (result ≡ 0 → bit_at p.now n ≡ 0) }
{
    if n % 64 == 0 && n + 64 <= end && word64(&words_of(p)[n / 64]) == u64::MAX {
        64
    } else if n % 8 == 0 && n + 8 <= end && p[n / 8] == 255 {
        8
    } else {
        usize::from(apages::bit(p, n))
    }
}

// Whether the bits of k sectors from a on are set.
pub fn run_set(p: &[u8], a: usize, k: usize) -> bool
    requires { (length p.now ≤ 512) × (a + k ≤ 8 * length p.now) }
    ensures { result ≡ all_set p.now a k }
{
    let end = a + k;
    let mut n = a;
    // A step is as many sectors as were seen to be set: no `for` has steps that vary.
    while n < end {
        let set = next_set(p, n, end);
        if set == 0 {
            return false;
        }
        n += set;
    }
    true
}
