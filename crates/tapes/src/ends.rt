// The end of a transaction.
ghost use Rattle.std.specs.Prelude.{◌≡◌};
ghost use Rattle.ending.specs.Committing.{commit_call};
ghost use Rattle.ending.specs.Dropping.{drop_transaction_call};
ghost use Rattle.tapes.specs.Numbers.{after_numbers, outcome_numbers, pair, single};

use crate::numbers::Reply;

// Commits an append or a truncate, and gives the new epoch. Codes: 1, 2, 18; on damaged memory 16 and 15.
#[unsafe(no_mangle)]
pub extern "C" fn tapes_commit(disk: &mut [u8], session: &mut [u8], transaction: u64) -> Reply
    ensures { outcome_numbers (commit_call disk.old session.old transaction) ≡ pair result disk.new session.new }
{
    ending::commit(disk, session, transaction).into()
}

// Gives up a transaction of any kind. Codes: 1, 2.
#[unsafe(no_mangle)]
pub extern "C" fn tapes_drop(disk: &[u8], session: &mut [u8], transaction: u64) -> Reply
    ensures { after_numbers (drop_transaction_call disk.now session.old transaction) ≡ single result session.new }
{
    ending::drop_transaction(disk, session, transaction).into()
}
