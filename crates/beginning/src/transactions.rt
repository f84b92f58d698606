// A transaction in a place of the session, and whom an append waits for.
ghost use Rattle.std.specs.Prelude.{◌≡◌, ◌≤◌, ◌<◌, length, OnOk};
ghost use Rattle.layout.specs.Disk.{Sound};
ghost use Rattle.layout.specs.Session.{session_bytes, Begun};
ghost use Rattle.beginning.specs.Transactions.{usable, check_usable, is_older, waiting_for, begin_at, is_open_at, after};

use answers::Refusal;
use layout::Session;
use session::{Head, Kind, Transaction};

// Whether both areas keep their layout rules and a session was begun.
pub fn is_usable(disk: &[u8], session: &[u8]) -> bool
    ensures { result ≡ usable disk.now session.now }
{
    layout::is_sound_disk(disk) && layout::is_begun_session(session)
}

// The first guard of a call, for `?`. Refused: 1.
pub fn check_usable(disk: &[u8], session: &[u8]) -> Result<(), Refusal>
    ensures value { result ≡ check_usable disk.now session.now }
    ensures served { OnOk result (Sound disk.now × Begun session.now) }
{
    if !is_usable(disk, session) {
        return Err(Refusal::Unusable);
    }
    Ok(())
}

// Whether a place has an open transaction.
pub fn is_open(session: &[u8], place: usize) -> bool
    requires { (session_bytes ≤ length session.now) × (place < 17) }
    ensures { result ≡ is_open_at session.now place }
{
    let row = session::get_transaction(session, place);
    !matches!(row.kind, Kind::Closed)
}

// Whether a place has a transaction that began before an epoch.
fn is_older(session: &[u8], place: usize, epoch: u64) -> bool
    requires { (session_bytes ≤ length session.now) × (place < 17) }
    ensures { result ≡ is_older session.now epoch place }
{
    is_open(session, place) && session::get_transaction(session, place).epoch < epoch
}

// How many readers are of an older epoch.
pub fn waiting_for(session: &[u8], epoch: u64) -> u64
    requires { session_bytes ≤ length session.now }
    ensures { result ≡ waiting_for session.now epoch }
{
    octets::count(0, Session::MOST_READERS, |place| {
        is_older(session, place, epoch)
    }) as u64
}

// A transaction begun in a place that is free: it gets the next number, the present epoch and the list
// as its view. Refused: 18.
pub fn begin_at(session: &mut [u8], place: usize, kind: Kind) -> Result<u64, Refusal>
    requires { (session_bytes ≤ length session.old) × (place < 17) }
    ensures { begin_at session.old place kind ≡ after result session.new }
{
    let head = session::get_head(session);
    let number = head
        .last_transaction
        .checked_add(1)
        .ok_or(Refusal::TooLarge)?;
    let epoch = head.epoch;
    session::put_transaction(
        session,
        place,
        Transaction {
            kind,
            number,
            epoch,
        },
    );
    session::copy_view(session, Session::LIST, place);
    session::put_head(
        session,
        Head {
            last_transaction: number,
            ..head
        },
    );
    Ok(number)
}
