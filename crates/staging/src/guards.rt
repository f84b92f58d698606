// What a call on a handle asks first: 1, then 2; and 11, where it is to see the tape.
ghost use Rattle.std.specs.Prelude.{◌≡◌, ◌≤◌, ◌<◌, length, IfOk};
ghost use Rattle.layout.specs.Disk.{Sound};
ghost use Rattle.layout.specs.Session.{session_bytes, Begun};
ghost use Rattle.staging.specs.Seeing.{writes, cuts};
ghost use Rattle.staging.specs.Guards.{writer_is, tape_to_read, tape_to_change, listed_by, offset_up_to};
ghost use Rattle.staging.specs.Ways.{Held};

use crate::seeing::seen_by;
use answers::Refusal;
use layout::Session;
use session::{Kind, View};

// Whether the open writer is of this kind and has this number.
pub fn is_writer(session: &[u8], kind: Kind, transaction: u64) -> bool
    requires { session_bytes ≤ length session.now }
    ensures { result ≡ writer_is session.now kind transaction }
{
    let row = session::get_transaction(session, Session::WRITER);
    row.kind == kind && row.number == transaction
}

// Whether the open append has this number. This and the next say `writes` and `cuts`, which the calls'
// definitions cite; a call of `is_writer` in their place would leave that to each proof.
pub fn is_writing(session: &[u8], transaction: u64) -> bool
    requires { session_bytes ≤ length session.now }
    ensures { result ≡ writes session.now transaction }
{
    is_writer(session, Kind::Append, transaction)
}

// Whether the open truncate has this number.
pub fn is_cutting(session: &[u8], transaction: u64) -> bool
    requires { session_bytes ≤ length session.now }
    ensures { result ≡ cuts session.now transaction }
{
    is_writer(session, Kind::Truncate, transaction)
}

// The place of a transaction, of any kind, and the tape of a handle. Refused: 1, 2.
pub fn tape_to_read(
    disk: &[u8],
    session: &[u8],
    transaction: u64,
    handle: u64,
) -> Result<(usize, usize), Refusal>
    ensures value { result ≡ tape_to_read disk.now session.now transaction handle }
    ensures served { IfOk result (λ found. (Sound disk.now × Begun session.now) × ((found.0 < 17) × Held session.now found.1)) }
{
    beginning::check_usable(disk, session)?;
    let place = session::find_transaction(session, transaction).ok_or(Refusal::Unknown)?;
    let tape = session::find_handle(session, handle).ok_or(Refusal::Unknown)?;
    Ok((place, tape))
}

// The tape of a handle, for the open append, or truncate, of this number. Refused: 1, 2.
pub fn tape_to_change(
    disk: &[u8],
    session: &[u8],
    kind: Kind,
    transaction: u64,
    handle: u64,
) -> Result<usize, Refusal>
    ensures value { result ≡ tape_to_change disk.now session.now kind transaction handle }
    ensures served { IfOk result (λ tape. (Sound disk.now × Begun session.now) × Held session.now tape) }
{
    beginning::check_usable(disk, session)?;
    if !is_writer(session, kind, transaction) {
        return Err(Refusal::Unknown);
    }
    session::find_handle(session, handle).ok_or(Refusal::Unknown)
}

// What a transaction place sees of a tape. Refused: 11.
pub fn listed_by(session: &[u8], place: usize, tape: usize) -> Result<View, Refusal>
    requires { (session_bytes ≤ length session.now) × ((place < 17) × (tape < 8)) }
    ensures { result ≡ listed_by session.now place tape }
{
    let view = seen_by(session, place, tape);
    if !view.listed {
        return Err(Refusal::Absent);
    }
    Ok(view)
}

// An index up to the length that the writer sees of a tape, in bytes. Refused: 11; past the length, as
// the caller says.
pub fn offset_up_to(session: &[u8], tape: usize, index: u64, past: Refusal) -> Result<u64, Refusal>
    requires { Begun session.now × Held session.now tape }
    ensures { result ≡ offset_up_to session.now tape index past }
{
    let view = listed_by(session, Session::WRITER, tape)?;
    let entry = session::get_handle(session, tape).entry;
    if !components::up_to(entry, index, view.len) {
        return Err(past);
    }
    Ok(index * entry)
}
