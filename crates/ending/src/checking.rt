// Whether a commit is refused.
ghost use Rattle.std.specs.Prelude.{◌≡◌, ◌&&◌, ◌<◌};
ghost use Rattle.octets.specs.First.{count};
ghost use Rattle.metadata.specs.Struct.{storable};
ghost use Rattle.layout.specs.Disk.{Sound};
ghost use Rattle.layout.specs.Session.{Begun};
ghost use Rattle.ending.specs.Checking.{has_directory, all_there, is_published, is_whole, may_commit};

use crate::listing::{directory_of, is_touched, published_view};
use answers::Refusal;
use layout::Session;
use metadata::TapeList;

// Whether a tape has its directory, if it was touched.
fn has_directory(disk: &[u8], session: &[u8], tape: usize) -> bool
    requires { (Sound disk.now × Begun session.now) × (tape < 8) }
    ensures { result ≡ has_directory disk.now session.now tape }
{
    if !is_touched(session, tape) {
        return true;
    }
    directory_of(disk, session, tape).is_some()
}

// Whether each tape that was touched has its directory.
#[tactic(auto, unfolding(crate::specs::Checking::all_there))]
fn all_there(disk: &[u8], session: &[u8]) -> bool
    requires { Sound disk.now × Begun session.now }
    ensures { result ≡ all_there disk.now session.now }
{
    octets::all(0, Session::MOST_TAPES, |tape| {
        has_directory(disk, session, tape)
    })
}

// How many tapes are published.
fn count_published(session: &[u8], cut: bool) -> usize
    requires { Begun session.now }
    ensures { result ≡ count (is_published session.now cut) 8 0 }
{
    octets::count(0, Session::MOST_TAPES, |tape| {
        published_view(session, cut, tape).listed
    })
}

// Whether the list has every tape that is published, and may be stored.
#[tactic(auto, unfolding(crate::specs::Checking::is_whole))]
fn may_store(session: &[u8], cut: bool, list: TapeList) -> bool
    requires { Begun session.now }
    ensures { result ≡ (is_whole session.now cut list && storable list) }
{
    list.count == count_published(session, cut) && metadata::is_storable(list)
}

// The new epoch, if the list may be stored. Refused: 1, 18, 16.
#[tactic(auto, unfolding(crate::specs::Checking::may_commit))]
pub fn may_commit(disk: &[u8], session: &[u8], cut: bool, list: TapeList) -> Result<u64, Refusal>
    requires { Sound disk.now × Begun session.now }
    ensures { result ≡ may_commit disk.now session.now cut list }
{
    if !may_store(session, cut, list) {
        return Err(Refusal::Unusable);
    }
    let epoch = session::get_head(session).epoch;
    if epoch == u64::MAX {
        return Err(Refusal::TooLarge);
    }
    if !all_there(disk, session) {
        return Err(Refusal::Missing);
    }
    Ok(epoch + 1)
}
