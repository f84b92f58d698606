// Entries appended to a tape.
ghost use Rattle.std.specs.Prelude.{◌≡◌, ◌+◌, ◌<◌, ◌^◌, length};
ghost use Rattle.answers.specs.Outcome.{outcome};
ghost use Rattle.layout.specs.Disk.{Sound};
ghost use Rattle.layout.specs.Session.{Begun};
ghost use Rattle.staging.specs.Seeing.{touched_as};
ghost use Rattle.staging.specs.Ways.{Held};
ghost use Rattle.appending.specs.Calls.{put_on, append_on, put_call};

use crate::room::no_room;
use answers::Refusal;
use layout::Session;
use session::Kind;

// The bytes put, into files of the tape's directory.
fn put_on(
    disk: &mut [u8],
    session: &mut [u8],
    tape: usize,
    place: usize,
    src: &[u8],
) -> Result<u64, Refusal>
    requires { (Sound disk.old × Begun session.old) × ((place < 8) × (Held session.old tape × ((touched_as session.old tape).len + length src.now < 2 ^ 64))) }
    ensures { put_on disk.old session.old tape place src.now ≡ outcome result disk.new session.new }
{
    if no_room(disk, session, Some(tape), src.len()) {
        return Err(Refusal::NoSlot);
    }
    let row = staging::touched_as(session, tape);
    let entry = session::get_handle(session, tape).entry;
    cached_tape::put_bytes(disk, session, place, tape, row, src);
    Ok(row.len / entry)
}

fn append_on(disk: &mut [u8], session: &mut [u8], tape: usize, src: &[u8]) -> Result<u64, Refusal>
    requires { (Sound disk.old × Begun session.old) × Held session.old tape }
    ensures { append_on disk.old session.old tape src.now ≡ outcome result disk.new session.new }
{
    let view = staging::listed_by(session, Session::WRITER, tape)?;
    let entry = session::get_handle(session, tape).entry;
    let n = src.len() as u64;
    if n % entry != 0 {
        return Err(Refusal::NotWhole);
    }
    view.len.checked_add(n).ok_or(Refusal::TooLarge)?;
    let name = session::tape_name(session, tape);
    let place = disk::find_directory(disk, name).ok_or(Refusal::Missing)?;
    put_on(disk, session, tape, place, src)
}

// Appends entries and answers the index of the first. Refused: 1, 2, 11, 10, 18, 16, 15.
pub fn append_entries(
    disk: &mut [u8],
    session: &mut [u8],
    transaction: u64,
    handle: u64,
    entries: &[u8],
) -> Result<u64, Refusal>
    ensures { put_call disk.old session.old transaction handle entries.now ≡ outcome result disk.new session.new }
{
    let tape = staging::tape_to_change(disk, session, Kind::Append, transaction, handle)?;
    append_on(disk, session, tape, entries)
}
