// The three ways to begin a transaction.
ghost use Rattle.std.specs.Prelude.{◌≡◌};
ghost use Rattle.beginning.specs.Transactions.{after};
ghost use Rattle.beginning.specs.Calls.{append_call, reader_call, truncate_call};

use crate::transactions::{begin_at, check_usable, is_open, waiting_for};
use answers::Refusal;
use layout::Session;
use session::Kind;

// Begins an append and answers its number. Refused: 1, 3, 4, 18.
pub fn append(disk: &[u8], session: &mut [u8]) -> Result<u64, Refusal>
    ensures { append_call disk.now session.old ≡ after result session.new }
{
    check_usable(disk, session)?;
    if is_open(session, Session::WRITER) {
        return Err(Refusal::WriterOpen);
    }
    let head = session::get_head(session);
    if head.cut {
        let readers = waiting_for(session, head.epoch);
        if 0 < readers {
            return Err(Refusal::Wait(readers));
        }
    }
    begin_at(session, Session::WRITER, Kind::Append)
}

// Begins a truncate and answers its number. Refused: 1, 3, 18.
pub fn truncate(disk: &[u8], session: &mut [u8]) -> Result<u64, Refusal>
    ensures { truncate_call disk.now session.old ≡ after result session.new }
{
    check_usable(disk, session)?;
    if is_open(session, Session::WRITER) {
        return Err(Refusal::WriterOpen);
    }
    begin_at(session, Session::WRITER, Kind::Truncate)
}

// Begins a reader and answers its number. Refused: 1, 5, 18.
pub fn reader(disk: &[u8], session: &mut [u8]) -> Result<u64, Refusal>
    ensures { reader_call disk.now session.old ≡ after result session.new }
{
    check_usable(disk, session)?;
    let place = session::free_reader(session).ok_or(Refusal::Full)?;
    begin_at(session, place, Kind::Reader)
}
