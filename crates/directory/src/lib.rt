// The directory: the entries in order, tests over all of them, and the entry that a call finds.
#![tactic(auto)]

ghost use Rattle.std.specs.Prelude.{◌≡◌, [], ◌*◌, ◌<◌, length, get_or};
ghost use Rattle.std.specs.Slice.Iter.{chunks_exact_size, chunks_exact_rest};
ghost use Rattle.sectors.specs.Sectors.{sec};
ghost use Rattle.counts.specs.Inner.{InLimits, LaidOut};
ghost use Rattle.entries.specs.Entries.{entry_bytes};
ghost use Rattle.directory.specs.Directory.{entries_of, spot_of, set_entry};
ghost use Rattle.directory.specs.Inner.{place_of, Gives};

use counts::{Geo, Image};
use entries::Entry;
use std::slice::ChunksExact;

// Where entry j starts in an image: "directory, four entries a sector".
pub fn place_of(g: Geo, j: usize) -> usize
    requires { InLimits g × (j < 4 * g.d) }
    ensures { result ≡ place_of g j }
{
    counts::dir_first(g).offset() + 128 * j
}

// The bytes of entry j.
pub fn entry(card: Image, j: usize) -> &[u8]
    requires { j < 4 * card.geo.d }
    ensures bytes { result.now ≡ get_or (entries_of card.entry.geo (sec card.entry.bytes.now)) j [] }
    ensures len { length result.now ≡ 128 }
{
    let at = place_of(card.geo, j);
    &card.bytes[at..at + 128]
}

// The bytes of every entry, in order.
pub fn entries(card: Image) -> ChunksExact<'_, u8>
    ensures size { chunks_exact_size result ≡ 128 }
    ensures len { length (chunks_exact_rest result) ≡ 512 * card.entry.geo.d }
    ensures gives { Gives result (entries_of card.entry.geo (sec card.entry.bytes.now)) }
{
    let first = counts::dir_first(card.geo).offset();
    card.bytes[first..first + 512 * (card.geo.d as usize)].chunks_exact(128)
}

// Writes entry j.
pub fn set_entry(img: &mut [u8], g: Geo, j: usize, e: Entry)
    requires { LaidOut g img.old × (j < 4 * g.d) }
    ensures { img.new ≡ set_entry (spot_of g j) (entry_bytes e) img.old }
{
    let at = place_of(g, j);
    entries::fill_entry(&mut img[at..at + 128], e)
}
