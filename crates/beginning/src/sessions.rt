// A new session.
ghost use Rattle.std.specs.Prelude.{◌≡◌};
ghost use Rattle.beginning.specs.Sessions.{both_sound, store_call};
ghost use Rattle.beginning.specs.Transactions.{after};

use answers::Refusal;
use metadata::Side;

// Whether both areas keep their layout rules.
fn both_sound(disk: &[u8], session: &[u8]) -> bool
    ensures { result ≡ both_sound disk.now session.now }
{
    if layout::is_sound_disk(disk) {
        return layout::is_sound_session(session);
    }
    false
}

// Begins a session with the list of the record that counts, and answers its epoch. Refused: 1, 17.
pub fn store(disk: &[u8], session: &mut [u8]) -> Result<u64, Refusal>
    ensures { store_call disk.now session.old ≡ after result session.new }
{
    if !both_sound(disk, session) {
        return Err(Refusal::Unusable);
    }
    let left = disk::side_part(disk, Side::Left);
    let right = disk::side_part(disk, Side::Right);
    let record = metadata::pick(left, right);
    let Some(list) = metadata::list_of(record) else {
        return Err(Refusal::BadList);
    };
    let epoch = metadata::epoch_of(record);
    let side = metadata::next_side(left, right);
    session::begin(session, epoch, side, list);
    Ok(epoch)
}
