// A new disk.
ghost use Rattle.std.specs.Prelude.{◌≡◌};
ghost use Rattle.answers.specs.Outcome.{outcome};
ghost use Rattle.beginning.specs.Disks.{format_call};

use answers::Refusal;
use areas::FormatError;

// Makes an empty disk of so many slots and ends the session. Refused: 8, then 1.
pub fn format(disk: &mut [u8], session: &mut [u8], slots: u64) -> Result<u64, Refusal>
    ensures { format_call disk.old session.old slots ≡ outcome result disk.new session.new }
{
    // No `From`: neither type is this crate's, and a type of its own between them would be no plainer.
    match areas::format(disk, session, slots) {
        Ok(()) => Ok(0),
        Err(FormatError::BadSlotCount) => Err(Refusal::BadSize),
        Err(FormatError::TooSmall) => Err(Refusal::Unusable),
    }
}
