// A tape opened under a name.
ghost use Rattle.std.specs.Prelude.{◌≡◌, ℕ, ◌≤◌, ◌<◌, length};
ghost use Rattle.answers.specs.Outcome.{outcome};
ghost use Rattle.layout.specs.Disk.{Sound};
ghost use Rattle.layout.specs.Session.{Begun};
ghost use Rattle.opening.specs.Calls.{can_fill, open_in, view_found, is_open_tape, place_for, open_at, open_on, open_call};

use crate::names_left::is_ninth;
use crate::placing::{Spot, cached_count, cached_from, open_now};
use crate::shape::{Opening, Shaped, opening_of, shape_of};
use answers::Refusal;
use layout::Session;
use session::View;

// Whether the bytes that the cache is filled with stand in the tape's files.
fn can_fill(disk: &[u8], session: &[u8], o: Shaped) -> bool
    requires { Sound disk.now × Begun session.now }
    ensures { result ≡ can_fill disk.now session.now o.entry.name.now o.entry.opening }
{
    rolling_tape::can_read(
        disk,
        session,
        false,
        o.name,
        o.opening.file_size,
        cached_from(o.opening),
        cached_count(o.opening),
    )
}

// In a tape place.
#[tactic(auto, unfolding(crate::specs::Calls::open_in))]
fn open_in(disk: &mut [u8], session: &mut [u8], o: Shaped, at: Spot) -> Result<u64, Refusal>
    requires { Sound disk.old × Begun session.old }
    ensures { open_in disk.old session.old o.entry.name.now o.entry.opening at.directory at.tape ≡ outcome result disk.new session.new }
{
    if is_ninth(disk, session, o.opening.listed, at.directory) {
        return Err(Refusal::Full);
    }
    if o.opening.listed && at.directory.is_none() {
        return Err(Refusal::Missing);
    }
    if !can_fill(disk, session, o) {
        return Err(Refusal::Missing);
    }
    if session::get_head(session).last_handle == u64::MAX {
        return Err(Refusal::TooLarge);
    }
    open_now(disk, session, o, at)
}

// What `tape` is asked here and below stays in the clauses: a struct round the option, with this as its
// invariant, would stand between it and `map_or`, `is_some_and`, `or_else` and `find_tape`.
fn view_found(session: &[u8], tape: Option<usize>) -> View
    requires { Begun session.now × ((p : ℕ) → tape ≡ Some p → p < 8) }
    ensures { result ≡ view_found session.now tape }
{
    tape.map_or(View::absent(), |place| {
        session::get_view(session, Session::WRITER, place)
    })
}

fn is_open_tape(session: &[u8], tape: Option<usize>) -> bool
    requires { Begun session.now × ((p : ℕ) → tape ≡ Some p → p < 8) }
    ensures { result ≡ is_open_tape session.now tape }
{
    tape.is_some_and(|place| session::get_handle(session, place).number != 0)
}

// The place that the tape has, else the first free one.
fn place_for(session: &[u8], tape: Option<usize>) -> Option<usize>
    requires { Begun session.now }
    ensures { result ≡ place_for session.now tape }
{
    tape.or_else(|| session::find_tape(session, b""))
}

#[tactic(auto, unfolding(crate::specs::Calls::open_at))]
fn open_at(
    disk: &mut [u8],
    session: &mut [u8],
    o: Shaped,
    tape: Option<usize>,
) -> Result<u64, Refusal>
    requires { (Sound disk.old × Begun session.old) × ((p : ℕ) → tape ≡ Some p → p < 8) }
    ensures { open_at disk.old session.old o.entry.name.now o.entry.opening tape ≡ outcome result disk.new session.new }
{
    if is_open_tape(session, tape) {
        return Err(Refusal::AlreadyOpen);
    }
    let tape = place_for(session, tape).ok_or(Refusal::Full)?;
    let directory = disk::find_directory(disk, o.name);
    open_in(disk, session, o, Spot { tape, directory })
}

#[tactic(auto, unfolding(crate::specs::Calls::open_on))]
fn open_on(
    disk: &mut [u8],
    session: &mut [u8],
    name: &[u8],
    o: Opening,
    tape: Option<usize>,
) -> Result<u64, Refusal>
    requires { (Sound disk.old × Begun session.old) × ((p : ℕ) → tape ≡ Some p → p < 8) }
    ensures { open_on disk.old session.old name.now o tape ≡ outcome result disk.new session.new }
{
    shape_of(name, o)?;
    open_at(disk, session, Shaped { name, opening: o }, tape)
}

// Opens a tape and answers its handle's number; a new one begins at the given start, in bytes.
// Refused: 1, 2, 6, 8, 10, 8, 7, 8, 9, 5, 16, 18.
#[tactic(auto, unfolding(crate::specs::Calls::open_call, beginning::specs::Transactions::check_usable))]
pub fn open(
    disk: &mut [u8],
    session: &mut [u8],
    transaction: u64,
    name: &[u8],
    entry: u64,
    file_size: u64,
    cache: u64,
    start: u64,
) -> Result<u64, Refusal>
    ensures { open_call disk.old session.old transaction name.now entry file_size cache start ≡ outcome result disk.new session.new }
{
    beginning::check_usable(disk, session)?;
    if !staging::is_writing(session, transaction) {
        return Err(Refusal::Unknown);
    }
    let tape = session::find_tape(session, name);
    let view = view_found(session, tape);
    let o = opening_of(view, entry, file_size, cache, start);
    open_on(disk, session, name, o, tape)
}
