// Both areas together: `format`, the one call that takes areas with any bytes in them.
//
// `specs/Format.antt` says what it answers and what both areas then hold, on every input; the laws
// beside it say what that means: an empty disk, and no session. Proved, and nothing is assumed.
#![tactic(auto)]

ghost use Rattle.std.specs.Prelude.{◌≡◌};
ghost use Rattle.areas.specs.Format.{format_step, outcome};

use layout::{Disk, Session};

// Why no disk is made; both areas are as they were.
#[derive(Clone, Copy, Debug, PartialEq, Eq)]
pub enum FormatError {
    // The slot count is not 1 to 64.
    BadSlotCount,
    // An area is too small.
    TooSmall,
}

// Makes an empty disk and ends the session.
pub fn format(disk: &mut [u8], session: &mut [u8], slots: u64) -> Result<(), FormatError>
    ensures { format_step disk.old session.old slots ≡ outcome result disk.new session.new }
{
    if slots < 1 || slots > Disk::MOST_SLOTS as u64 {
        return Err(FormatError::BadSlotCount);
    }
    let count = slots as usize;
    if disk.len() < layout::disk_bytes(count) || session.len() < Session::BYTES {
        return Err(FormatError::TooSmall);
    }
    disk::format(disk, count);
    session::end(session);
    Ok(())
}
