// Searches of the directory: the entry of a name, and the lowest that shows no file.
#![tactic(auto)]

ghost use Rattle.std.specs.Prelude.{◌≡◌, length};
ghost use Rattle.words.specs.Lists.{first_at};
ghost use Rattle.sectors.specs.Sectors.{sec};
ghost use Rattle.counts.specs.Stamps.{table_in};
ghost use Rattle.directory.specs.Directory.{entries_of, gone, named};

use counts::{Image, View};

// Whether an entry shows, in either view, a file of that name. What it shows is looked up only if it has the name.
#[tactic(auto, unfolding(directory::specs::Directory::named))]
fn is_named(card: Image, v: View, w: View, name: &[u8], p: &[u8]) -> bool
    requires { length p.now ≡ 128 }
    ensures { result ≡ named (table_in card.entry.geo v (sec card.entry.bytes.now)) (table_in card.entry.geo w (sec card.entry.bytes.now)) name.now p.now }
{
    entries_names::has_name(name, p) && !directory_rules::is_gone(card, v, w, p)
}

// The first entry that shows, in either view, a file of that name.
pub fn find_name(card: Image, v: View, w: View, name: &[u8]) -> Option<usize>
    ensures { result ≡ first_at (named (table_in card.entry.geo v (sec card.entry.bytes.now)) (table_in card.entry.geo w (sec card.entry.bytes.now)) name.now) 0 (entries_of card.entry.geo (sec card.entry.bytes.now)) }
{
    directory::entries(card).position(|p| is_named(card, v, w, name, p))
}

// The first entry that shows no file in either view.
pub fn find_free(card: Image, v: View, w: View) -> Option<usize>
    ensures { result ≡ first_at (gone (table_in card.entry.geo v (sec card.entry.bytes.now)) (table_in card.entry.geo w (sec card.entry.bytes.now))) 0 (entries_of card.entry.geo (sec card.entry.bytes.now)) }
{
    directory::entries(card).position(|p| directory_rules::is_gone(card, v, w, p))
}
