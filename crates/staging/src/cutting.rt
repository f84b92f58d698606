// A shorter length, staged in a truncate.
ghost use Rattle.std.specs.Prelude.{◌≡◌, ◌<◌};
ghost use Rattle.layout.specs.Session.{Begun};
ghost use Rattle.beginning.specs.Transactions.{after};
ghost use Rattle.staging.specs.Cutting.{cut_to, cut_on, drop_on, cut_call, drop_call};
ghost use Rattle.staging.specs.Ways.{Held};

use crate::guards::{offset_up_to, tape_to_change};
use crate::seeing::{seen_by, touched_as};
use answers::Refusal;
use layout::Session;
use session::{Kind, Staged};

// A length, staged; nothing is left unwritten.
pub fn put_len(session: &mut [u8], tape: usize, len: u64)
    requires { Begun session.old × (tape < 8) }
    ensures { session.new ≡ cut_to session.old tape len }
{
    let row = touched_as(session, tape);
    session::put_staged(
        session,
        tape,
        Staged {
            touched: true,
            len,
            unwritten: 0,
            ..row
        },
    );
}

fn cut_on(session: &mut [u8], tape: usize, index: u64) -> Result<u64, Refusal>
    requires { Begun session.old × Held session.old tape }
    ensures { cut_on session.old tape index ≡ after result session.new }
{
    let len = offset_up_to(session, tape, index, Refusal::LongerCut)?;
    put_len(session, tape, len);
    Ok(0)
}

// So many entries dropped from the end, at most all of them.
fn drop_on(session: &mut [u8], tape: usize, count: u64) -> Result<u64, Refusal>
    requires { Begun session.old × Held session.old tape }
    ensures { drop_on session.old tape count ≡ after result session.new }
{
    let seen = seen_by(session, Session::WRITER, tape);
    let entries = seen.len / session::get_handle(session, tape).entry;
    cut_on(session, tape, entries.saturating_sub(count))
}

// Cuts a tape to a length in entries. Refused: 1, 2, 11, 14.
pub fn truncate_tape(
    disk: &[u8],
    session: &mut [u8],
    transaction: u64,
    handle: u64,
    len: u64,
) -> Result<u64, Refusal>
    ensures { cut_call disk.now session.old transaction handle len ≡ after result session.new }
{
    let tape = tape_to_change(disk, session, Kind::Truncate, transaction, handle)?;
    cut_on(session, tape, len)
}

// Drops entries from a tape's end; it stops at 0. Refused: 1, 2, 11.
pub fn drop_entries(
    disk: &[u8],
    session: &mut [u8],
    transaction: u64,
    handle: u64,
    count: u64,
) -> Result<u64, Refusal>
    ensures { drop_call disk.now session.old transaction handle count ≡ after result session.new }
{
    let tape = tape_to_change(disk, session, Kind::Truncate, transaction, handle)?;
    drop_on(session, tape, count)
}
