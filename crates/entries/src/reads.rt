// Entries read into the caller's buffer.
ghost use Rattle.std.specs.Prelude.{◌≡◌, ◌+◌, ◌*◌, ◌≤◌, ◌<◌, ◌^◌, length};
ghost use Rattle.answers.specs.Outcome.{reading, entering};
ghost use Rattle.layout.specs.Disk.{Sound};
ghost use Rattle.layout.specs.Session.{Begun, entry_size_of};
ghost use Rattle.staging.specs.Ways.{Held};
ghost use Rattle.entries.specs.Reads.{serve_on, read_on, read_call, none_for, one_of, entry_call};

use answers::Refusal;

// Bytes that lie in bounds, into a buffer that has room for them.
fn serve_on(
    disk: &[u8],
    session: &[u8],
    tape: usize,
    index: u64,
    count: u64,
    out: &mut [u8],
) -> Result<u64, Refusal>
    requires { ((Sound disk.now × Begun session.now) × Held session.now tape) × ((index * entry_size_of session.now tape + count * entry_size_of session.now tape < 2 ^ 64) × (count * entry_size_of session.now tape ≤ length out.old)) }
    ensures { serve_on disk.now session.now tape index count out.old ≡ reading result out.new }
{
    let entry = session::get_handle(session, tape).entry;
    let offset = index * entry;
    let wanted = (count * entry) as usize;
    if !cached_tape::can_serve(disk, session, tape, offset, wanted) {
        return Err(Refusal::Missing);
    }
    cached_tape::serve(disk, session, tape, offset, &mut out[..wanted]);
    Ok(count)
}

// As a transaction place sees the tape.
pub fn read_on(
    disk: &[u8],
    session: &[u8],
    place: usize,
    tape: usize,
    index: u64,
    count: u64,
    out: &mut [u8],
) -> Result<u64, Refusal>
    requires { ((Sound disk.now × Begun session.now) × (place < 17)) × Held session.now tape }
    ensures { read_on disk.now session.now place tape index count out.old ≡ reading result out.new }
{
    let view = staging::listed_by(session, place, tape)?;
    let entry = session::get_handle(session, tape).entry;
    if !components::in_bounds(entry, view.start, view.len, index, count) {
        return Err(Refusal::OutOfBounds);
    }
    if (out.len() as u64) < count * entry {
        return Err(Refusal::NotWhole);
    }
    serve_on(disk, session, tape, index, count, out)
}

// Reads entries from an index on, and answers how many. Refused: 1, 2, 11, 12, 10, 16.
pub fn read_entries(
    disk: &[u8],
    session: &[u8],
    transaction: u64,
    handle: u64,
    index: u64,
    count: u64,
    out: &mut [u8],
) -> Result<u64, Refusal>
    ensures { read_call disk.now session.now transaction handle index count out.old ≡ reading result out.new }
{
    let (place, tape) = staging::tape_to_read(disk, session, transaction, handle)?;
    read_on(disk, session, place, tape, index, count, out)
}

// What a refused read of one entry answers: none for 12 alone.
pub fn none_for(why: Refusal) -> Result<Option<u64>, Refusal>
    ensures { result ≡ none_for why }
{
    match why {
        Refusal::OutOfBounds => Ok(None),
        _ => Err(why),
    }
}

fn one_of(index: u64, answer: Result<u64, Refusal>) -> Result<Option<u64>, Refusal>
    ensures { result ≡ one_of index answer }
{
    match answer {
        Ok(_) => Ok(Some(index)),
        Err(why) => none_for(why),
    }
}

// Reads one entry; none where it lies out of bounds. Refused: 1, 2, 11, 10, 16.
pub fn read_entry(
    disk: &[u8],
    session: &[u8],
    transaction: u64,
    handle: u64,
    index: u64,
    out: &mut [u8],
) -> Result<Option<u64>, Refusal>
    ensures { entry_call disk.now session.now transaction handle index out.old ≡ entering result out.new }
{
    one_of(
        index,
        read_entries(disk, session, transaction, handle, index, 1, out),
    )
}
