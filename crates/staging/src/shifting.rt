// A new start, staged in an append.
ghost use Rattle.std.specs.Prelude.{◌≡◌, ◌<◌};
ghost use Rattle.layout.specs.Session.{Begun};
ghost use Rattle.beginning.specs.Transactions.{after};
ghost use Rattle.staging.specs.Shifting.{shifted, shift_on, shift_call};
ghost use Rattle.staging.specs.Ways.{Held};

use crate::guards::{offset_up_to, tape_to_change};
use crate::seeing::touched_as;
use answers::Refusal;
use session::{Kind, Staged};

// The larger of the old start and the new one, staged.
fn put_start(session: &mut [u8], tape: usize, start: u64)
    requires { Begun session.old × (tape < 8) }
    ensures { session.new ≡ shifted session.old tape start }
{
    let row = touched_as(session, tape);
    let start = row.start.max(start);
    session::put_staged(
        session,
        tape,
        Staged {
            touched: true,
            start,
            ..row
        },
    );
}

fn shift_on(session: &mut [u8], tape: usize, index: u64) -> Result<u64, Refusal>
    requires { Begun session.old × Held session.old tape }
    ensures { shift_on session.old tape index ≡ after result session.new }
{
    let start = offset_up_to(session, tape, index, Refusal::StartPastLength)?;
    put_start(session, tape, start);
    Ok(0)
}

// Moves a tape's start up to an index; a start never moves down. Refused: 1, 2, 11, 13.
pub fn shift_start(
    disk: &[u8],
    session: &mut [u8],
    transaction: u64,
    handle: u64,
    index: u64,
) -> Result<u64, Refusal>
    ensures { shift_call disk.now session.old transaction handle index ≡ after result session.new }
{
    let tape = tape_to_change(disk, session, Kind::Append, transaction, handle)?;
    shift_on(session, tape, index)
}
