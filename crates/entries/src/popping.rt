// The last entry of a tape, read and cut off.
ghost use Rattle.std.specs.Prelude.{◌≡◌, ◌*◌, ◌<◌, ◌^◌};
ghost use Rattle.answers.specs.Outcome.{popping};
ghost use Rattle.layout.specs.Disk.{Sound};
ghost use Rattle.layout.specs.Session.{Begun, entry_size_of};
ghost use Rattle.staging.specs.Ways.{Held};
ghost use Rattle.entries.specs.Popping.{pop_at, pop_on, pop_call};

use crate::reads::{none_for, read_on};
use answers::Refusal;
use layout::Session;
use session::Kind;

// The entry of an index, read and cut off with all behind it.
fn pop_at(
    disk: &[u8],
    session: &mut [u8],
    tape: usize,
    index: u64,
    out: &mut [u8],
) -> Result<Option<u64>, Refusal>
    requires { (Sound disk.now × Begun session.old) × (Held session.old tape × (index * entry_size_of session.old tape < 2 ^ 64)) }
    ensures { pop_at disk.now session.old tape index out.old ≡ popping result session.new out.new }
{
    // A match and no `?`: 12 is no refusal of a pop.
    match read_on(disk, session, Session::WRITER, tape, index, 1, out) {
        Ok(_) => {
            let entry = session::get_handle(session, tape).entry;
            staging::put_len(session, tape, index * entry);
            Ok(Some(index))
        }
        Err(why) => none_for(why),
    }
}

fn pop_on(
    disk: &[u8],
    session: &mut [u8],
    tape: usize,
    out: &mut [u8],
) -> Result<Option<u64>, Refusal>
    requires { (Sound disk.now × Begun session.old) × Held session.old tape }
    ensures { pop_on disk.now session.old tape out.old ≡ popping result session.new out.new }
{
    let view = staging::seen_by(session, Session::WRITER, tape);
    if !view.listed {
        return Ok(None);
    }
    let entries = view.len / session::get_handle(session, tape).entry;
    if entries == 0 {
        return Ok(None);
    }
    pop_at(disk, session, tape, entries - 1, out)
}

// Reads the last entry and stages that it is cut off, in a truncate; none where the tape is absent or
// empty, or its last entry lies below its start. Refused: 1, 2, 10, 16.
pub fn pop_entry(
    disk: &[u8],
    session: &mut [u8],
    transaction: u64,
    handle: u64,
    out: &mut [u8],
) -> Result<Option<u64>, Refusal>
    ensures { pop_call disk.now session.old transaction handle out.old ≡ popping result session.new out.new }
{
    let tape = staging::tape_to_change(disk, session, Kind::Truncate, transaction, handle)?;
    pop_on(disk, session, tape, out)
}
