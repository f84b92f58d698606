// The transaction places: sixteen for readers and, behind them, the writer's.
ghost use Rattle.std.specs.Prelude.{◌≡◌, ◌≤◌, ◌<◌, length};
ghost use Rattle.layout.specs.Session.{session_bytes};
ghost use Rattle.session.specs.Meaning.{closed};
ghost use Rattle.session.specs.Rows.{kind_for, kind_code, transaction_of, put_transaction, is_open_as, is_closed, find_transaction, free_reader};

use layout::Session;

// A transaction's kind; its number is the area's (docs/LAYOUT.md).
#[derive(Clone, Copy, Debug, PartialEq, Eq)]
pub enum Kind {
    Closed,
    Reader,
    Append,
    Truncate,
}

#[derive(Clone, Copy, Debug, PartialEq, Eq)]
pub struct Transaction {
    // Also `Closed`, and no `Option` around: `transaction_of` and `put_transaction` say all three words
    // of every row.
    pub kind: Kind,
    pub number: u64,
    // The session's epoch when the transaction began.
    pub epoch: u64,
}

impl Transaction {
    // A place with no transaction.
    pub fn closed() -> Self
        ensures { result ≡ closed }
    {
        Transaction {
            kind: Kind::Closed,
            number: 0,
            epoch: 0,
        }
    }
}

impl From<u64> for Kind {
    ghost from_gives = { λ word kind. kind ≡ kind_for word };

    fn from(word: u64) -> Kind {
        match word {
            0 => Kind::Closed,
            1 => Kind::Reader,
            2 => Kind::Append,
            _ => Kind::Truncate,
        }
    }
}

impl From<Kind> for u64 {
    ghost from_gives = { λ kind word. word ≡ kind_code kind };

    fn from(kind: Kind) -> u64 {
        kind as u64
    }
}

pub fn get_transaction(session: &[u8], place: usize) -> Transaction
    requires { (session_bytes ≤ length session.now) × (place < 17) }
    ensures { result ≡ transaction_of session.now place }
{
    let at = Session::TRANSACTIONS + place * Session::TRANSACTION_BYTES;
    Transaction {
        kind: Kind::from(octets::u64_at(session, at)),
        number: octets::u64_at(session, at + 8),
        epoch: octets::u64_at(session, at + 16),
    }
}

pub fn put_transaction(session: &mut [u8], place: usize, row: Transaction)
    requires { (session_bytes ≤ length session.old) × (place < 17) }
    ensures { session.new ≡ put_transaction session.old place row }
{
    let at = Session::TRANSACTIONS + place * Session::TRANSACTION_BYTES;
    octets::put_u64(session, at, u64::from(row.kind));
    octets::put_u64(session, at + 8, row.number);
    octets::put_u64(session, at + 16, row.epoch);
}

// Whether a place has an open transaction of this number.
fn is_open_as(session: &[u8], place: usize, number: u64) -> bool
    requires { (session_bytes ≤ length session.now) × (place < 17) }
    ensures { result ≡ is_open_as session.now number place }
{
    let at = Session::TRANSACTIONS + place * Session::TRANSACTION_BYTES;
    octets::u64_at(session, at) != 0 && octets::u64_at(session, at + 8) == number
}

// The place of the open transaction of a number.
pub fn find_transaction(session: &[u8], number: u64) -> Option<usize>
    requires { session_bytes ≤ length session.now }
    ensures { result ≡ find_transaction session.now number }
{
    octets::first(
        0,
        Session::WRITER + 1,
        |place| is_open_as(session, place, number),
    )
}

fn is_closed(session: &[u8], place: usize) -> bool
    requires { (session_bytes ≤ length session.now) × (place < 17) }
    ensures { result ≡ is_closed session.now place }
{
    let at = Session::TRANSACTIONS + place * Session::TRANSACTION_BYTES;
    octets::u64_at(session, at) == 0
}

// The first reader place that is closed.
pub fn free_reader(session: &[u8]) -> Option<usize>
    requires { session_bytes ≤ length session.now }
    ensures { result ≡ free_reader session.now }
{
    octets::first(0, Session::MOST_READERS, |place| is_closed(session, place))
}
