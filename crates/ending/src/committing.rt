// What a transaction has staged, made the state that all later ones begin with.
ghost use Rattle.std.specs.Prelude.{◌≡◌, true, ◌+◌, ◌<◌, ◌^◌};
ghost use Rattle.answers.specs.Outcome.{outcome};
ghost use Rattle.metadata.specs.Struct.{storable};
ghost use Rattle.layout.specs.Disk.{Sound};
ghost use Rattle.layout.specs.Session.{Begun};
ghost use Rattle.session.specs.Rows.{head_of};
ghost use Rattle.rolling_tape.specs.Removal.{areas};
ghost use Rattle.ending.specs.Committing.{stored, ripened_append, commit_append, commit_truncate, commit_call};

use crate::checking::may_commit;
use crate::listing::next_list;
use crate::oldest::oldest_of;
use crate::steps::{
    advance, close_writer, cut_all, flush_all, publish_all, ripen_all, write_record,
};
use answers::Refusal;
use layout::Session;
use metadata::TapeList;

// The list published, the record written, the next epoch.
#[tactic(auto, unfolding(crate::specs::Committing::stored))]
fn store_list(disk: &mut [u8], session: &mut [u8], cut: bool, list: TapeList)
    requires { (Sound disk.old × Begun session.old) × ((storable list ≡ true) × ((head_of session.old).epoch + 1 < 2 ^ 64)) }
    ensures { stored disk.old session.old cut list ≡ areas disk.new session.new }
{
    publish_all(session, cut);
    write_record(disk, session, list);
    advance(session, cut);
}

// Data, list and record, and then marks and removal.
#[tactic(auto, unfolding(crate::specs::Committing::ripened_append, crate::specs::Committing::stored_append))]
fn store_append(disk: &mut [u8], session: &mut [u8], list: TapeList)
    requires { (Sound disk.old × Begun session.old) × ((storable list ≡ true) × ((head_of session.old).epoch + 1 < 2 ^ 64)) }
    ensures { ripened_append disk.old session.old list ≡ areas disk.new session.new }
{
    let writer = session::get_transaction(session, Session::WRITER);
    let oldest = oldest_of(session);
    flush_all(disk, session);
    store_list(disk, session, false, list);
    ripen_all(disk, session, writer.epoch, oldest);
}

#[tactic(auto, unfolding(crate::specs::Committing::commit_append))]
fn commit_append(disk: &mut [u8], session: &mut [u8]) -> Result<u64, Refusal>
    requires { Sound disk.old × Begun session.old }
    ensures { commit_append disk.old session.old ≡ outcome result disk.new session.new }
{
    let list = next_list(session, false);
    let epoch = may_commit(disk, session, false, list)?;
    if appending::no_room(disk, session, None, 0) {
        return Err(Refusal::NoSlot);
    }
    store_append(disk, session, list);
    close_writer(session);
    Ok(epoch)
}

#[tactic(auto, unfolding(crate::specs::Committing::commit_truncate))]
fn commit_truncate(disk: &mut [u8], session: &mut [u8]) -> Result<u64, Refusal>
    requires { Sound disk.old × Begun session.old }
    ensures { commit_truncate disk.old session.old ≡ outcome result disk.new session.new }
{
    let list = next_list(session, true);
    let epoch = may_commit(disk, session, true, list)?;
    store_list(disk, session, true, list);
    cut_all(disk, session);
    close_writer(session);
    Ok(epoch)
}

// Commits an append or a truncate, and answers the new epoch. Refused: 1, 2, 18; on damaged memory 16
// and 15 too.
#[tactic(auto, unfolding(crate::specs::Committing::commit_call, beginning::specs::Transactions::check_usable))]
pub fn commit(disk: &mut [u8], session: &mut [u8], transaction: u64) -> Result<u64, Refusal>
    ensures { commit_call disk.old session.old transaction ≡ outcome result disk.new session.new }
{
    beginning::check_usable(disk, session)?;
    if staging::is_writing(session, transaction) {
        return commit_append(disk, session);
    }
    if staging::is_cutting(session, transaction) {
        return commit_truncate(disk, session);
    }
    Err(Refusal::Unknown)
}
