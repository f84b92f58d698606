// A tape as a transaction sees it.
ghost use Rattle.std.specs.Prelude.{◌≡◌, ◌≢◌, ◌≤◌, ◌<◌, length};
ghost use Rattle.layout.specs.Session.{session_bytes, Begun};
ghost use Rattle.staging.specs.Seeing.{is_append, seen_by, touched_as, in_entries, len_call, start_call};
ghost use Rattle.staging.specs.Ways.{Held};

use crate::guards::{listed_by, tape_to_read};
use answers::Refusal;
use layout::Session;
use session::{Kind, Staged, View};

// What a transaction place sees of a tape: the writer sees what it has staged.
pub fn seen_by(session: &[u8], place: usize, tape: usize) -> View
    requires { (session_bytes ≤ length session.now) × ((place < 17) × (tape < 8)) }
    ensures { result ≡ seen_by session.now place tape }
{
    let staged = session::get_staged(session, tape);
    if place == Session::WRITER && staged.touched {
        return View {
            listed: true,
            len: staged.len,
            start: staged.start,
        };
    }
    session::get_view(session, place, tape)
}

// The staged record of a tape that the writer touches now: what it had staged, or its view.
pub fn touched_as(session: &[u8], tape: usize) -> Staged
    requires { (session_bytes ≤ length session.now) × (tape < 8) }
    ensures { result ≡ touched_as session.now tape }
{
    let staged = session::get_staged(session, tape);
    if staged.touched {
        return staged;
    }
    let view = session::get_view(session, Session::WRITER, tape);
    Staged {
        touched: true,
        base: view.len,
        len: view.len,
        start: view.start,
        unwritten: 0,
    }
}

pub fn is_append(kind: Kind) -> bool
    ensures { result ≡ is_append kind }
{
    matches!(kind, Kind::Append)
}

// Bytes in entries of a tape's size.
fn in_entries(session: &[u8], tape: usize, bytes: u64) -> u64
    requires { Begun session.now × Held session.now tape }
    ensures { result ≡ in_entries session.now tape bytes }
{
    bytes / session::get_handle(session, tape).entry
}

// A tape's length, in entries. Refused: 1, 2, 11.
pub fn tape_len(disk: &[u8], session: &[u8], transaction: u64, handle: u64) -> Result<u64, Refusal>
    ensures { result ≡ len_call disk.now session.now transaction handle }
{
    let (place, tape) = tape_to_read(disk, session, transaction, handle)?;
    let view = listed_by(session, place, tape)?;
    Ok(in_entries(session, tape, view.len))
}

// A tape's start, in entries; it shares all with `tape_len` but the field. Refused: 1, 2, 11.
pub fn tape_start(
    disk: &[u8],
    session: &[u8],
    transaction: u64,
    handle: u64,
) -> Result<u64, Refusal>
    ensures { result ≡ start_call disk.now session.now transaction handle }
{
    let (place, tape) = tape_to_read(disk, session, transaction, handle)?;
    let view = listed_by(session, place, tape)?;
    Ok(in_entries(session, tape, view.start))
}
