// The list that a commit publishes, by name in byte order.
ghost use Rattle.std.specs.Prelude.{◌≡◌, ℕ, ◌≤◌, ◌<◌};
ghost use Rattle.metadata.specs.Struct.{meaning, stored, list_of};
ghost use Rattle.layout.specs.Disk.{Sound};
ghost use Rattle.layout.specs.Session.{Begun};
ghost use Rattle.staging.specs.Seeing.{directory_of};
ghost use Rattle.ending.specs.Listing.{is_touched, published, is_less, is_next, next_behind, tape_in, next_list};

use layout::Session;
use metadata::{TapeList, TapeMetadata};
use session::{Staged, View};

// Whether the writer touched an open tape.
pub fn is_touched(session: &[u8], tape: usize) -> bool
    requires { Begun session.now × (tape < 8) }
    ensures { result ≡ is_touched session.now tape }
{
    session::get_handle(session, tape).number != 0 && session::get_staged(session, tape).touched
}

// The directory of an open tape's name.
pub fn directory_of(disk: &[u8], session: &[u8], tape: usize) -> Option<usize>
    requires { (Sound disk.now × Begun session.now) × (tape < 8) }
    ensures { result ≡ directory_of disk.now session.now tape }
{
    disk::find_directory(disk, session::tape_name(session, tape))
}

// The view of a tape that a commit publishes.
#[tactic(auto, unfolding(crate::specs::Listing::published))]
pub fn published_view(session: &[u8], cut: bool, tape: usize) -> View
    requires { Begun session.now × (tape < 8) }
    ensures { result ≡ published session.now cut tape }
{
    if !is_touched(session, tape) {
        return session::get_view(session, Session::WRITER, tape);
    }
    let Staged { len, start, .. } = session::get_staged(session, tape);
    View {
        listed: true,
        len,
        start: if cut { start.min(len) } else { start },
    }
}

// Whether a tape's name comes before that of the best so far.
fn is_less(session: &[u8], tape: usize, best: Option<usize>) -> bool
    requires { Begun session.now × ((tape < 8) × ((p : ℕ) → best ≡ Some p → p < 8)) }
    ensures { result ≡ is_less session.now tape best }
{
    match best {
        Some(other) => octets::comes_before(
            session::tape_name(session, tape),
            session::tape_name(session, other),
        ),
        None => true,
    }
}

// Whether a tape is published, its name comes behind one, and before that of the best so far.
#[tactic(auto, unfolding(crate::specs::Listing::is_next))]
fn is_next(session: &[u8], cut: bool, before: &[u8], best: Option<usize>, tape: usize) -> bool
    requires { Begun session.now × ((tape < 8) × ((p : ℕ) → best ≡ Some p → p < 8)) }
    ensures { result ≡ is_next session.now cut before.now best tape }
{
    published_view(session, cut, tape).listed
        && octets::comes_before(before, session::tape_name(session, tape))
        && is_less(session, tape, best)
}

// The tape whose name is the least behind a name.
fn next_behind(session: &[u8], cut: bool, before: &[u8]) -> Option<usize>
    requires { Begun session.now }
    ensures { result ≡ next_behind session.now cut before.now }
{
    let mut best = None;
    for tape in 0..Session::MOST_TAPES {
        if is_next(session, cut, before, best, tape) {
            best = Some(tape);
        }
    }
    best
}

// The same behind the name of a tape of the list.
fn next_after(session: &[u8], cut: bool, before: TapeMetadata) -> Option<usize>
    requires { Begun session.now × (before.letters ≤ 24) }
    ensures { result ≡ next_behind session.now cut (meaning before).name }
{
    next_behind(session, cut, &before.name[..before.letters])
}

// A tape as the list has it.
fn tape_in(session: &[u8], cut: bool, tape: usize) -> TapeMetadata
    requires { Begun session.now × (tape < 8) }
    ensures { result ≡ stored (tape_in session.now cut tape) }
{
    let View { len, start, .. } = published_view(session, cut, tape);
    let part = session::tape_name(session, tape);
    let mut name = [0u8; TapeMetadata::MOST_LETTERS];
    octets::copy_in(&mut name, 0, part);
    TapeMetadata {
        letters: part.len(),
        name,
        len,
        start,
    }
}

pub fn next_list(session: &[u8], cut: bool) -> TapeList
    requires { Begun session.now }
    ensures { result ≡ list_of (next_list session.now cut) }
{
    let mut tapes = [TapeMetadata::blank(); TapeList::MOST_NAMES];
    let mut before = TapeMetadata::blank();
    for i in 0..TapeList::MOST_NAMES {
        let Some(tape) = next_after(session, cut, before) else {
            return TapeList { count: i, tapes };
        };
        before = tape_in(session, cut, tape);
        tapes[i] = before;
    }
    TapeList {
        count: TapeList::MOST_NAMES,
        tapes,
    }
}
