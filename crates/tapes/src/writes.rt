// What an open append or truncate stages.
ghost use Rattle.std.specs.Prelude.{◌≡◌};
ghost use Rattle.appending.specs.Calls.{put_call};
ghost use Rattle.opening.specs.Calls.{open_call};
ghost use Rattle.staging.specs.Cutting.{cut_call, drop_call};
ghost use Rattle.staging.specs.Shifting.{shift_call};
ghost use Rattle.tapes.specs.Numbers.{after_numbers, outcome_numbers, pair, single};

use crate::numbers::Reply;

// Opens a tape in an append, and gives its handle. Codes: 1, 2, 6, 8, 10, 8, 7, 8, 9, 5, 16, 18.
#[unsafe(no_mangle)]
pub extern "C" fn tapes_open(
    disk: &mut [u8],
    session: &mut [u8],
    transaction: u64,
    name: &[u8],
    entry: u64,
    file_size: u64,
    cache: u64,
    start: u64,
) -> Reply
    ensures { outcome_numbers (open_call disk.old session.old transaction name.now entry file_size cache start) ≡ pair result disk.new session.new }
{
    opening::open(
        disk,
        session,
        transaction,
        name,
        entry,
        file_size,
        cache,
        start,
    )
    .into()
}

// Appends entries, and gives the index of the first. Codes: 1, 2, 11, 10, 18, 16, 15.
#[unsafe(no_mangle)]
pub extern "C" fn tapes_append_entries(
    disk: &mut [u8],
    session: &mut [u8],
    transaction: u64,
    handle: u64,
    entries: &[u8],
) -> Reply
    ensures { outcome_numbers (put_call disk.old session.old transaction handle entries.now) ≡ pair result disk.new session.new }
{
    appending::append_entries(disk, session, transaction, handle, entries).into()
}

// Moves a start up to an index. Codes: 1, 2, 11, 13.
#[unsafe(no_mangle)]
pub extern "C" fn tapes_shift_start(
    disk: &[u8],
    session: &mut [u8],
    transaction: u64,
    handle: u64,
    index: u64,
) -> Reply
    ensures { after_numbers (shift_call disk.now session.old transaction handle index) ≡ single result session.new }
{
    staging::shift_start(disk, session, transaction, handle, index).into()
}

// Cuts a tape to so many entries, in a truncate. Codes: 1, 2, 11, 14.
#[unsafe(no_mangle)]
pub extern "C" fn tapes_truncate_tape(
    disk: &[u8],
    session: &mut [u8],
    transaction: u64,
    handle: u64,
    len: u64,
) -> Reply
    ensures { after_numbers (cut_call disk.now session.old transaction handle len) ≡ single result session.new }
{
    staging::truncate_tape(disk, session, transaction, handle, len).into()
}

// Drops so many entries from the end, in a truncate. Codes: 1, 2, 11.
#[unsafe(no_mangle)]
pub extern "C" fn tapes_drop_entries(
    disk: &[u8],
    session: &mut [u8],
    transaction: u64,
    handle: u64,
    count: u64,
) -> Reply
    ensures { after_numbers (drop_call disk.now session.old transaction handle count) ≡ single result session.new }
{
    staging::drop_entries(disk, session, transaction, handle, count).into()
}
