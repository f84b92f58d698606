// What an open does to a tape's directory: a known tape's files are taken over, else it is made or
// emptied.
ghost use Rattle.std.specs.Prelude.{◌≡◌, [], ℕ, ◌≤◌, ◌<◌, length};
ghost use Rattle.layout.specs.Disk.{Sound, directories};
ghost use Rattle.layout.specs.Names.{find_name};
ghost use Rattle.layout.specs.Session.{session_bytes};
ghost use Rattle.rolling_tape.specs.Removal.{areas};
ghost use Rattle.opening.specs.Directory.{taken_files, emptied, added, readied};

use crate::shape::Opening;
use rolling_tape::Change;

// A known tape's files are tracked up to that of its length, and those below its start's are marked and
// removed. No reader is heeded, since all of them have this start.
#[tactic(auto, unfolding(crate::specs::Directory::taken_files))]
fn take_files(disk: &mut [u8], session: &mut [u8], place: usize, o: Opening, began: u64)
    requires { (Sound disk.old × (session_bytes ≤ length session.old)) × ((place < 8) × (0 < o.file_size)) }
    ensures { taken_files (areas disk.old session.old) place o began ≡ areas disk.new session.new }
{
    let last = components::file_of(o.file_size, o.len);
    rolling_tape::retrack(disk, session, place, Change::TrackUpTo(last));
    let number = components::file_of(o.file_size, o.start);
    let marks = Change::MarkBelow {
        number,
        epoch: began,
    };
    rolling_tape::retrack(disk, session, place, marks);
    rolling_tape::remove_ripe(disk, session, place, u64::MAX);
}

// The files of a directory go, and are tracked no more.
#[tactic(auto, unfolding(crate::specs::Directory::emptied))]
fn empty(disk: &mut [u8], session: &mut [u8], place: usize)
    requires { (Sound disk.old × (session_bytes ≤ length session.old)) × (place < 8) }
    ensures { emptied (areas disk.old session.old) place ≡ areas disk.new session.new }
{
    rolling_tape::retrack(disk, session, place, Change::UntrackAll);
    disk::empty_directory(disk, place);
}

// A new directory. Only damaged memory says that it has files: they go too.
fn add(disk: &mut [u8], session: &mut [u8], name: &[u8])
    requires { (Sound disk.old × (session_bytes ≤ length session.old)) × (length name.now ≤ 24) }
    ensures { added (areas disk.old session.old) name.now (find_name disk.old directories []) ≡ areas disk.new session.new }
{
    let Some(place) = disk::find_directory(disk, b"") else {
        return;
    };
    empty(disk, session, place);
    disk::add_directory(disk, name);
}

// It takes name and opening apart, not `Shaped`, since it asks for no more than it needs: a name of at most
// 24 bytes and a file size above 0.
pub fn ready(
    disk: &mut [u8],
    session: &mut [u8],
    name: &[u8],
    o: Opening,
    began: u64,
    directory: Option<usize>,
)
    requires { (Sound disk.old × (session_bytes ≤ length session.old)) × (((length name.now ≤ 24) × (0 < o.file_size)) × ((place : ℕ) → directory ≡ Some place → place < 8)) }
    ensures { readied (areas disk.old session.old) name.now o began directory ≡ areas disk.new session.new }
{
    match directory {
        Some(place) if o.listed => take_files(disk, session, place, o, began),
        Some(place) => empty(disk, session, place),
        None => add(disk, session, name),
    }
}
