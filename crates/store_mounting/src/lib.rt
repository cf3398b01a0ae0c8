// The one write of mount, and the sectors that it and sync write.
#![tactic(auto)]

ghost use Rattle.std.specs.Prelude.{◌≡◌, ◌+◌, ◌*◌, ◌≤◌, ◌<◌, length, take};
ghost use Rattle.words.specs.Lists.{splice};
ghost use Rattle.words.specs.Bytes.{word_bytes};
ghost use Rattle.sectors.specs.Sectors.{sec, apply_steps, apply_step};
ghost use Rattle.counts.specs.Geometry.{count_of};
ghost use Rattle.store.specs.Steps.{set_count, set_word, mount_steps};
ghost use Rattle.store.specs.Mount.{opened_from, mount_done};
ghost use Rattle.store.specs.Inner.{CanMount};

use counts::{CrashCount, Image, TxCount};
use sectors::Sector;
use session::Opened;

// ---- one word of an image

// Puts the crash count into sector 0 of an image.
#[tactic(auto, unfolding(store::specs::Steps::set_count))]
pub fn set_count(img: &mut [u8], c: CrashCount)
    requires { 4 ≤ length img.old }
    ensures { img.new ≡ set_count c.0 img.old }
{
    words::put_word(img, 0, c.0)
}

// Sets table word c of an image to t.
#[tactic(auto, unfolding(store::specs::Steps::set_word))]
pub fn set_word(img: &mut [u8], c: CrashCount, t: TxCount)
    requires { (c.0 < 65536) × (512 + 4 * c.0 + 4 ≤ length img.old) }
    ensures { img.new ≡ set_word c.0 t.0 img.old }
{
    words::put_word(img, 512 + 4 * (c.0 as usize), t.0)
}

// Sector i of an image, with one word put at `at`.
pub fn sector_with(img: &[u8], i: Sector, at: usize, w: u32) -> [u8; 512]
    requires { (512 * i.0 + 512 ≤ length img.now) × (at + 4 ≤ 512) }
    ensures { result ≡ splice (sec img.now i.0) at (word_bytes w) }
{
    let mut block = [0u8; 512];
    block.copy_from_slice(sectors::sector_at(img, i));
    words::put_word(&mut block, at, w);
    block
}

// ---- mount

// Step number k of mount: "Mount writes C + 1 to sector 0 of the card", then a barrier.
#[tactic(auto, using(crate::proofs::Places::mounting))]
fn mount_step(card: &mut [u8], k: u32)
    requires { (512 ≤ length card.old) × ((k ≡ 0) → count_of (sec card.old) < 65536) }
    ensures { card.new ≡ apply_step k (mount_steps card.old) card.old }
{
    // No match: a write ends its step, as the body's last line, and bench/tests/forms.rs reads that here.
    if k != 0 {
        return;
    }
    let next = words::word_at(card, 0) + 1;
    let block = sector_with(card, Sector(0), 0, next);
    sectors::write_sector(card, Sector(0), &block)
}

// The first k steps of mount; it has two.
#[tactic(auto, using(crate::proofs::Places::mounting), unfolding(sectors::specs::Sectors::apply_steps))]
pub fn mount_steps(card: &mut [u8], k: u32)
    requires { CanMount card.old }
    ensures { card.new ≡ apply_steps (take k (mount_steps card.old)) card.old }
{
    for i in 0..k.min(2) {
        mount_step(card, i);
    }
}

// "The session has c = the old C and t = table word c, plus 1."
#[tactic(auto, using(crate::proofs::Places::mounting), unfolding(store::specs::Mount::opened_from))]
fn opened_from(card: &[u8]) -> Opened
    requires { CanMount card.now }
    ensures { result ≡ opened_from card.now }
{
    let geo = counts::geo_of(card);
    let c = CrashCount(words::word_at(card, 0));
    let image = Image { geo, bytes: card };
    Opened {
        geo,
        c,
        t: TxCount(counts::table_word(image, c) + 1),
        worn: false,
    }
}

// "Mount writes C + 1 to sector 0 of the card, then copies the card to the working image."
#[tactic(auto, unfolding(store::specs::Mount::mount_done, store::specs::Steps::mount_steps))]
pub fn mount_in(card: &mut [u8], work: &mut [u8]) -> Opened
    requires { CanMount card.old × (length work.old ≡ length card.old) }
    ensures { (result ≡ opened_from card.old) × ((card.new ≡ (mount_done card.old).card) × (work.new ≡ (mount_done card.old).work)) }
{
    let s = opened_from(card);
    mount_steps(card, 2);
    work.copy_from_slice(&*card);
    s
}
