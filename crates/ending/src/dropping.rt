// A transaction given up.
ghost use Rattle.std.specs.Prelude.{◌≡◌, ℕ, ◌≤◌, ◌<◌, length};
ghost use Rattle.layout.specs.Disk.{Sound};
ghost use Rattle.layout.specs.Session.{session_bytes, Begun};
ghost use Rattle.beginning.specs.Transactions.{after};
ghost use Rattle.ending.specs.Dropping.{reverted, untrack_in, forgotten, take_back, drop_append, drop_at, drop_transaction_call};

use crate::listing::{directory_of, is_touched};
use crate::steps::{close_writer, unstage_tape};
use answers::Refusal;
use layout::Session;
use ring_buffer::RingBuffer;
use rolling_tape::Change;
use session::{Handle, Transaction};

// A known tape's ring gives up what was staged.
#[tactic(auto, unfolding(crate::specs::Dropping::reverted))]
fn revert(session: &mut [u8], tape: usize)
    requires { (session_bytes ≤ length session.old) × (tape < 8) }
    ensures { session.new ≡ reverted tape session.old }
{
    let ring = session::get_ring(session, tape);
    let staged = session::get_staged(session, tape);
    let amount = staged.len.saturating_sub(staged.base);
    unstage_tape(session, tape);
    session::put_ring(session, tape, ring.pop(amount));
}

fn untrack(disk: &[u8], session: &mut [u8], directory: Option<usize>)
    requires { (Sound disk.now × (session_bytes ≤ length session.old)) × ((place : ℕ) → directory ≡ Some place → place < 8) }
    ensures { session.new ≡ untrack_in disk.now session.old directory }
{
    if let Some(place) = directory {
        rolling_tape::retrack(disk, session, place, Change::UntrackAll);
    }
}

// A tape that was created loses its handle and its place.
#[tactic(auto, unfolding(crate::specs::Dropping::forgotten))]
fn forget(disk: &[u8], session: &mut [u8], tape: usize)
    requires { (Sound disk.now × Begun session.old) × (tape < 8) }
    ensures { session.new ≡ forgotten disk.now tape session.old }
{
    let directory = directory_of(disk, session, tape);
    unstage_tape(session, tape);
    untrack(disk, session, directory);
    session::put_handle(session, tape, Handle::none());
    session::put_ring(session, tape, RingBuffer::new(0, 0));
    session::put_tape_name(session, tape, b"");
}

#[tactic(auto, unfolding(crate::specs::Dropping::take_back))]
fn take_back(disk: &[u8], session: &mut [u8], tape: usize)
    requires { (Sound disk.now × Begun session.old) × (tape < 8) }
    ensures { session.new ≡ take_back disk.now tape session.old }
{
    if !is_touched(session, tape) {
        return;
    }
    let view = session::get_view(session, Session::WRITER, tape);
    if view.listed {
        revert(session, tape);
    } else {
        forget(disk, session, tape);
    }
}

// Its loop stays beside those of `steps.rt`, for their reason.
fn drop_append(disk: &[u8], session: &mut [u8])
    requires { Sound disk.now × Begun session.old }
    ensures { session.new ≡ drop_append disk.now session.old }
{
    for tape in 0..Session::MOST_TAPES {
        take_back(disk, session, tape);
    }
    close_writer(session);
}

// The transaction in a place.
#[tactic(auto, unfolding(crate::specs::Dropping::drop_at))]
fn drop_at(disk: &[u8], session: &mut [u8], place: usize)
    requires { (Sound disk.now × Begun session.old) × (place < 17) }
    ensures { session.new ≡ drop_at disk.now session.old place }
{
    if place != Session::WRITER {
        session::put_transaction(session, place, Transaction::closed());
        return;
    }
    let writer = session::get_transaction(session, Session::WRITER);
    if staging::is_append(writer.kind) {
        drop_append(disk, session);
    } else {
        close_writer(session);
    }
}

// Gives up a transaction of any kind. Refused: 1, 2.
#[tactic(auto, unfolding(crate::specs::Dropping::drop_transaction_call, beginning::specs::Transactions::check_usable))]
pub fn drop_transaction(disk: &[u8], session: &mut [u8], transaction: u64) -> Result<u64, Refusal>
    ensures { drop_transaction_call disk.now session.old transaction ≡ after result session.new }
{
    beginning::check_usable(disk, session)?;
    let place = session::find_transaction(session, transaction).ok_or(Refusal::Unknown)?;
    drop_at(disk, session, place);
    Ok(0)
}
