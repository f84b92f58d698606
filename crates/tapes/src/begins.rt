// A disk, a session, a transaction.
ghost use Rattle.std.specs.Prelude.{◌≡◌};
ghost use Rattle.beginning.specs.Calls.{append_call, reader_call, truncate_call};
ghost use Rattle.beginning.specs.Disks.{format_call};
ghost use Rattle.beginning.specs.Sessions.{store_call};
ghost use Rattle.tapes.specs.Numbers.{after_numbers, outcome_numbers, pair, single};

use crate::numbers::Reply;

// Makes an empty disk of so many slots, 1 to 64, and ends the session. Codes: 8, 1.
#[unsafe(no_mangle)]
pub extern "C" fn tapes_format(disk: &mut [u8], session: &mut [u8], slots: u64) -> Reply
    ensures { outcome_numbers (format_call disk.old session.old slots) ≡ pair result disk.new session.new }
{
    beginning::format(disk, session, slots).into()
}

// Begins a session, and gives its epoch. Codes: 1, 17.
#[unsafe(no_mangle)]
pub extern "C" fn tapes_store(disk: &[u8], session: &mut [u8]) -> Reply
    ensures { after_numbers (store_call disk.now session.old) ≡ single result session.new }
{
    beginning::store(disk, session).into()
}

// Begins an append, and gives its number. Codes: 1, 3, 4 (with how many readers it waits for), 18.
#[unsafe(no_mangle)]
pub extern "C" fn tapes_append(disk: &[u8], session: &mut [u8]) -> Reply
    ensures { after_numbers (append_call disk.now session.old) ≡ single result session.new }
{
    beginning::append(disk, session).into()
}

// Begins a reader, and gives its number. Codes: 1, 5, 18.
#[unsafe(no_mangle)]
pub extern "C" fn tapes_reader(disk: &[u8], session: &mut [u8]) -> Reply
    ensures { after_numbers (reader_call disk.now session.old) ≡ single result session.new }
{
    beginning::reader(disk, session).into()
}

// Begins a truncate, and gives its number. Codes: 1, 3, 18.
#[unsafe(no_mangle)]
pub extern "C" fn tapes_truncate(disk: &[u8], session: &mut [u8]) -> Reply
    ensures { after_numbers (truncate_call disk.now session.old) ≡ single result session.new }
{
    beginning::truncate(disk, session).into()
}
