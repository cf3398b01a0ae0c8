// Put and remove in the working image, once every decision is made: content, entry, bitmap.
#![tactic(auto)]

ghost use Rattle.std.specs.Prelude.{◌≡◌, true, Some, [], ◌+◌, ◌*◌, ◌≤◌, ◌<◌, length, get_or};
ghost use Rattle.words.specs.Lists.{first_at};
ghost use Rattle.sectors.specs.Sectors.{sec};
ghost use Rattle.counts.specs.Inner.{LaidOut};
ghost use Rattle.entries.specs.Entries.{entry_of, changed, good_name};
ghost use Rattle.directory.specs.Directory.{entries_of, named};
ghost use Rattle.card.specs.Files.{run_of};
ghost use Rattle.session.specs.Views.{own_stamp, present_table};
ghost use Rattle.session.specs.Fits.{fits};
ghost use Rattle.store.specs.Edit.{put_content, edit_work, put_run, put_work, remove_work};
ghost use Rattle.store.specs.Inner.{CanEdit};

use card_files::{run_at, run_of};
use counts::Image;
use entries::{Entry, Run, Version};
use sectors::Sector;
use session::{Opened, own_stamp, present_view};
use store_find::sectors_of;

// "Content goes to the lowest run ..; The last sector is filled with zeros."
fn put_content(img: &mut [u8], r: Run, content: &[u8])
    requires { (length content.now ≤ 512 * r.sectors) × (512 * (r.start.0 + r.sectors) ≤ length img.old) }
    ensures { img.new ≡ put_content r content.now img.old }
{
    let at = r.start.offset();
    let room = &mut img[at..at + 512 * (r.sectors as usize)];
    room[..content.len()].copy_from_slice(content);
    room[content.len()..].fill(0)
}

// Entry j with the name and a new version, under the session's own stamp.
#[tactic(auto, using(crate::proofs::Edits::entry))]
fn changed_entry(s: Opened, work: &[u8], name: &[u8], j: usize, v: Version) -> Entry
    requires { LaidOut s.geo work.now × ((j < 4 * s.geo.d) × (length name.now ≤ 32)) }
    ensures { result ≡ changed (present_table s (sec work.now)) (own_stamp s) (entry_of (get_or (entries_of s.geo (sec work.now)) j [])) name.now v }
{
    let e = entries_shown::entry_at(work, directory::place_of(s.geo, j));
    let own = own_stamp(s);
    let image = Image {
        geo: s.geo,
        bytes: work,
    };
    let standing = counts_stamps::stands(image, present_view(s), own, e.stamp);
    entries::changed(standing, own, e, name, v)
}

// Entry j gets a name and a version, the content goes to the version's run, and the file's earlier sectors are cleared in the bitmap.
#[tactic(auto, using(crate::proofs::Edits::edits))]
fn edit(s: Opened, work: &mut [u8], name: &[u8], content: &[u8], j: usize, v: Version)
    requires { CanEdit s work.old j (run_of v) name.now content.now }
    ensures { work.new ≡ edit_work s j v work.old name.now content.now }
{
    let own = own_stamp(s);
    let present = present_view(s);
    let run = run_of(v);
    let image = Image {
        geo: s.geo,
        bytes: work,
    };
    let earlier = run_at(image, present, j);
    let e = changed_entry(s, work, name, j, v);
    put_content(work, run, content);
    directory::set_entry(work, s.geo, j, e);
    apages_bitmap::change_bits(work, s.geo, present, own, run, earlier)
}

// Put in the working image: entry j and the run from sector a on, as its searches find them, can take it.
#[tactic(auto, unfolding(store::specs::Edit::put_work, store::specs::Edit::put_run, card::specs::Files::run_of))]
pub fn put_in(s: Opened, work: &mut [u8], name: &[u8], content: &[u8], j: usize, a: Sector)
    requires { CanEdit s work.old j (put_run a content.now) name.now content.now }
    ensures { work.new ≡ put_work s j a work.old name.now content.now }
{
    let run = Run {
        start: a,
        sectors: sectors_of(content) as u32,
        bytes: content.len() as u32,
    };
    edit(s, work, name, content, j, Version::Present(run))
}

// Remove in the working image: entry j is what its search found.
#[tactic(auto, unfolding(store::specs::Edit::remove_work))]
pub fn remove_in(s: Opened, work: &mut [u8], name: &[u8], j: usize)
    requires { (fits s work.old ≡ true) × ((good_name name.now ≡ true) × (first_at (named (present_table s (sec work.old)) (present_table s (sec work.old)) name.now) 0 (entries_of s.geo (sec work.old)) ≡ Some j)) }
    ensures { work.new ≡ remove_work s j work.old name.now }
{
    edit(s, work, name, &[], j, Version::Absent)
}
