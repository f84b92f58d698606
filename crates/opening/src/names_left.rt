// How many names there are, in directories and in the list.
ghost use Rattle.std.specs.Prelude.{◌≡◌, ◌<◌};
ghost use Rattle.layout.specs.Disk.{Sound, directories};
ghost use Rattle.layout.specs.Session.{Begun, names_at};
ghost use Rattle.octets.specs.First.{count};
ghost use Rattle.opening.specs.NamesLeft.{is_named, is_listed_alone, names_used, is_ninth};

use layout::{Disk, Session};
use metadata::TapeList;

// Whether a directory place has a name, and is the first that has it.
#[tactic(auto, unfolding(crate::specs::NamesLeft::is_named))]
fn is_directory(disk: &[u8], place: usize) -> bool
    requires { Sound disk.now × (place < 8) }
    ensures { result ≡ is_named disk.now directories place }
{
    let name = disk::directory_name(disk, place);
    !name.is_empty() && disk::find_directory(disk, name) == Some(place)
}

// The same of a tape place: two calls of another crate, and the fact that they ask for.
#[tactic(auto, unfolding(crate::specs::NamesLeft::is_named))]
fn is_tape(session: &[u8], tape: usize) -> bool
    requires { Begun session.now × (tape < 8) }
    ensures { result ≡ is_named session.now names_at tape }
{
    let name = session::tape_name(session, tape);
    !name.is_empty() && session::find_tape(session, name) == Some(tape)
}

// Whether a tape is listed as the append began, and has no directory.
#[tactic(auto, unfolding(crate::specs::NamesLeft::is_listed_alone))]
fn is_listed_alone(disk: &[u8], session: &[u8], tape: usize) -> bool
    requires { (Sound disk.now × Begun session.now) × (tape < 8) }
    ensures { result ≡ is_listed_alone disk.now session.now tape }
{
    is_tape(session, tape)
        && session::get_view(session, Session::WRITER, tape).listed
        && disk::find_directory(disk, session::tape_name(session, tape)).is_none()
}

fn count_directories(disk: &[u8]) -> usize
    requires { Sound disk.now }
    ensures { result ≡ count (is_named disk.now directories) 8 0 }
{
    octets::count(0, Disk::MOST_DIRECTORIES, |place| is_directory(disk, place))
}

fn count_listed_alone(disk: &[u8], session: &[u8]) -> usize
    requires { Sound disk.now × Begun session.now }
    ensures { result ≡ count (is_listed_alone disk.now session.now) 8 0 }
{
    octets::count(0, Session::MOST_TAPES, |tape| {
        is_listed_alone(disk, session, tape)
    })
}

#[tactic(auto, unfolding(crate::specs::NamesLeft::names_used))]
fn names_used(disk: &[u8], session: &[u8]) -> usize
    requires { Sound disk.now × Begun session.now }
    ensures { result ≡ names_used disk.now session.now }
{
    let directories = count_directories(disk);
    let alone = count_listed_alone(disk, session);
    directories + alone
}

// Whether a name is one too many: it is not listed, its directory is not there, and there are eight names,
// or (damaged memory) no directory place is free.
#[tactic(auto, unfolding(crate::specs::NamesLeft::is_ninth))]
pub fn is_ninth(disk: &[u8], session: &[u8], listed: bool, directory: Option<usize>) -> bool
    requires { Sound disk.now × Begun session.now }
    ensures { result ≡ is_ninth disk.now session.now listed directory }
{
    if listed || directory.is_some() {
        return false;
    }
    TapeList::MOST_NAMES <= names_used(disk, session) || disk::find_directory(disk, b"").is_none()
}
