// What a transaction sees.
ghost use Rattle.std.specs.Prelude.{◌≡◌};
ghost use Rattle.entries.specs.Existing.{exists_call};
ghost use Rattle.entries.specs.Popping.{pop_call};
ghost use Rattle.entries.specs.Reads.{read_call, entry_call};
ghost use Rattle.staging.specs.Seeing.{len_call, start_call};
ghost use Rattle.tapes.specs.Numbers.{entering_numbers, numbers, pair, popping_numbers, reading_numbers, single};

use crate::numbers::Reply;

// A tape's length in entries. Codes: 1, 2, 11.
#[unsafe(no_mangle)]
pub extern "C" fn tapes_len(disk: &[u8], session: &[u8], transaction: u64, handle: u64) -> Reply
    ensures { result ≡ numbers (len_call disk.now session.now transaction handle) }
{
    staging::tape_len(disk, session, transaction, handle).into()
}

// A tape's start in entries. Codes: 1, 2, 11.
#[unsafe(no_mangle)]
pub extern "C" fn tapes_start(disk: &[u8], session: &[u8], transaction: u64, handle: u64) -> Reply
    ensures { result ≡ numbers (start_call disk.now session.now transaction handle) }
{
    staging::tape_start(disk, session, transaction, handle).into()
}

// 1 if an append sees a tape of this name, else 0. Codes: 1, 2.
#[unsafe(no_mangle)]
pub extern "C" fn tapes_exists(disk: &[u8], session: &[u8], transaction: u64, name: &[u8]) -> Reply
    ensures { result ≡ numbers (exists_call disk.now session.now transaction name.now) }
{
    entries::tape_exists(disk, session, transaction, name).into()
}

// Reads so many entries from an index on into a buffer, and gives how many. Codes: 1, 2, 11, 12, 10, 16.
#[unsafe(no_mangle)]
pub extern "C" fn tapes_read_entries(
    disk: &[u8],
    session: &[u8],
    transaction: u64,
    handle: u64,
    index: u64,
    count: u64,
    out: &mut [u8],
) -> Reply
    ensures { reading_numbers (read_call disk.now session.now transaction handle index count out.old) ≡ single result out.new }
{
    entries::read_entries(disk, session, transaction, handle, index, count, out).into()
}

// Reads one entry into a buffer, and gives its index; 2^64-1 where there is none. Codes: 1, 2, 11, 10, 16.
#[unsafe(no_mangle)]
pub extern "C" fn tapes_read_entry(
    disk: &[u8],
    session: &[u8],
    transaction: u64,
    handle: u64,
    index: u64,
    out: &mut [u8],
) -> Reply
    ensures { entering_numbers (entry_call disk.now session.now transaction handle index out.old) ≡ single result out.new }
{
    entries::read_entry(disk, session, transaction, handle, index, out).into()
}

// Reads the last entry into a buffer and stages that it is cut off, and gives its index; 2^64-1 where there is
// none. Codes: 1, 2, 10, 16.
#[unsafe(no_mangle)]
pub extern "C" fn tapes_pop_entry(
    disk: &[u8],
    session: &mut [u8],
    transaction: u64,
    handle: u64,
    out: &mut [u8],
) -> Reply
    ensures { popping_numbers (pop_call disk.now session.old transaction handle out.old) ≡ pair result session.new out.new }
{
    entries::pop_entry(disk, session, transaction, handle, out).into()
}
