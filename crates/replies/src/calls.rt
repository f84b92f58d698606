// The calls that a line may ask for, but for the read. The two areas stay two parameters: every call of
// the store takes them so, as C lends them.
#![tactic(auto, unfolding(crate::specs::Replies::made, crate::specs::Replies::kept))]

ghost use Rattle.std.specs.Prelude.{◌≡◌, ◌/◌, ◌≤◌, length};
ghost use Rattle.octets.specs.Bytes.{put};
ghost use Rattle.answers.specs.Outcome.{outcome};
ghost use Rattle.appending.specs.Calls.{put_call};
ghost use Rattle.lines.specs.Hex.{hex_bytes};
ghost use Rattle.replies.specs.Replies.{made, kept};

use answers::Refusal;
use lines::Call;

// The slots of the driver's disk.
const SLOTS: u64 = 8;

// The bytes of a put's line, appended.
fn append(
    disk: &mut [u8],
    session: &mut [u8],
    transaction: u64,
    handle: u64,
    hex: &[u8],
    space: &mut [u8],
) -> Result<u64, Refusal>
    requires { length hex.now / 2 ≤ length space.old }
    ensures { (put_call disk.old session.old transaction handle (hex_bytes hex.now) ≡ outcome result disk.new session.new) × (space.new ≡ put space.old 0 (hex_bytes hex.now)) }
{
    lines::put_bytes(space, hex);
    let n = hex.len() / 2;
    appending::append_entries(disk, session, transaction, handle, &space[..n])
}

// Whatever the line asks for; a read, and a line that can't be read, ask for nothing here.
pub fn make(
    disk: &mut [u8],
    session: &mut [u8],
    line: &[u8],
    call: Option<Call>,
    space: &mut [u8],
) -> Result<u64, Refusal>
    requires { (length line.now ≤ 8500) × (4250 ≤ length space.old) }
    ensures { (made disk.old session.old line.now call ≡ outcome result disk.new session.new) × (space.new ≡ kept line.now space.old call) }
{
    let Some(call) = call else {
        return Ok(0);
    };
    match call {
        Call::Format => beginning::format(disk, session, SLOTS),
        Call::Store => beginning::store(disk, session),
        Call::Append => beginning::append(disk, session),
        Call::Reader => beginning::reader(disk, session),
        Call::Truncate => beginning::truncate(disk, session),
        Call::Open {
            transaction,
            entry,
            file,
            cache,
            start,
        } => opening::open(
            disk,
            session,
            transaction,
            lines::field(line, 2),
            entry,
            file,
            cache,
            start,
        ),
        Call::Put {
            transaction,
            handle,
        } => append(
            disk,
            session,
            transaction,
            handle,
            lines::field(line, 3),
            space,
        ),
        Call::Shift {
            transaction,
            handle,
            start,
        } => staging::shift_start(disk, session, transaction, handle, start),
        Call::Cut {
            transaction,
            handle,
            len,
        } => staging::truncate_tape(disk, session, transaction, handle, len),
        Call::Commit { transaction } => ending::commit(disk, session, transaction),
        Call::Drop { transaction } => ending::drop_transaction(disk, session, transaction),
        Call::Read { .. } => Ok(0),
    }
}
