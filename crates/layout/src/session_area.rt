// The session's area and its rule.
ghost use Rattle.std.specs.Prelude.{◌≡◌, ◌≤◌, ◌<◌, length};
ghost use Rattle.octets.specs.First.{all};
ghost use Rattle.layout.specs.Session.{kind_word, ring_fits, tape_fits, kind_fits, tables_fit, begun, sound};
ghost use Rattle.layout.specs.Joined.{joined};

use crate::names::names_fit;

// The offsets and limits of the session's area. The type carries these constants; its field is how
// long an area is.
#[derive(Clone, Copy)]
pub struct Session {
    pub bytes: usize,
}

impl Session {
    pub const MOST_TAPES: usize = 8;

    pub const MOST_READERS: usize = 16;

    // The transaction place that is the writer's: behind the readers'.
    pub const WRITER: usize = 16;

    // The view behind those of the transactions: the list of the last commit.
    pub const LIST: usize = 17;

    pub const RING_BYTES: usize = 4096;

    // The largest entry and file sizes.
    pub const MOST_ENTRY: u64 = 256;

    pub const MOST_FILE: u64 = 4096;

    // "tapesess", as the area's first bytes, once a session was begun; before, zeros.
    pub const MARK: u64 = 0x7373_6573_6570_6174;

    // The words at the front.
    pub const HEAD: usize = 8;

    // The tables.
    pub const NAMES: usize = 48;

    pub const VIEWS: usize = 304;

    pub const VIEW_BYTES: usize = 192;

    // The row of one tape in a view.
    pub const VIEW_ROW: usize = 24;

    pub const TRANSACTIONS: usize = 3760;

    pub const TRANSACTION_BYTES: usize = 24;

    pub const TAPES: usize = 4168;

    pub const TAPE_BYTES: usize = 96;

    // In a tape's row: its handle comes first, then the ring's bookkeeping, then the staged record.
    pub const RING: usize = 24;

    pub const STAGED: usize = 56;

    pub const TRACKING: usize = 4936;

    pub const TRACKING_BYTES: usize = 16;

    // The rings' bytes, up to the end.
    pub const RINGS: usize = 5960;

    pub const BYTES: usize = 38728;
}

// Whether the ring of a tape lies inside its capacity and the unwritten bytes are among the held.
#[tactic(auto, unfolding(crate::specs::Session::ring_fits))]
fn ring_fits(session: &[u8], tape: usize) -> bool
    requires { (38728 ≤ length session.now) × (tape < 8) }
    ensures { result ≡ ring_fits session.now tape }
{
    let at = Session::TAPES + tape * Session::TAPE_BYTES;
    let capacity = octets::u64_at(session, at + 24);
    if capacity > Session::RING_BYTES as u64 || capacity <= octets::u64_at(session, at + 32) {
        return false;
    }
    let held = octets::u64_at(session, at + 40);
    held <= capacity && octets::u64_at(session, at + 88) <= held
}

// Whether a tape's row is in range; that of a tape with no handle is not looked at.
#[tactic(auto, unfolding(crate::specs::Session::tape_fits))]
fn tape_fits(session: &[u8], tape: usize) -> bool
    requires { (38728 ≤ length session.now) × (tape < 8) }
    ensures { result ≡ tape_fits session.now tape }
{
    let at = Session::TAPES + tape * Session::TAPE_BYTES;
    if octets::u64_at(session, at) == 0 {
        return true;
    }
    let entry = octets::u64_at(session, at + 8);
    let file_size = octets::u64_at(session, at + 16);
    (1..=Session::MOST_ENTRY).contains(&entry)
        && (1..=Session::MOST_FILE).contains(&file_size)
        && ring_fits(session, tape)
}

fn tapes_fit(session: &[u8]) -> bool
    requires { 38728 ≤ length session.now }
    ensures { result ≡ all (tape_fits session.now) 8 0 }
{
    octets::all(0, Session::MOST_TAPES, |tape| tape_fits(session, tape))
}

// The kinds of the readers' places joined by OR: no more than 1 just where each is 0 or 1.
fn readers_joined(session: &[u8]) -> u64
    requires { 38728 ≤ length session.now }
    ensures { result ≡ joined (kind_word session.now) 16 }
{
    let mut joined = 0;
    for i in 0..Session::MOST_READERS {
        joined |= octets::u64_at(
            session,
            Session::TRANSACTIONS + i * Session::TRANSACTION_BYTES,
        );
    }
    joined
}

// Whether each transaction place has a kind that may stand there: 0 is closed, 1 a reader; in the
// writer's place 2 is an append and 3 a truncate: the words of the area (docs/LAYOUT.md), before they are
// known to be kinds.
fn kinds_fit(session: &[u8]) -> bool
    requires { 38728 ≤ length session.now }
    ensures { result ≡ all (kind_fits session.now) 17 0 }
{
    if 1 < readers_joined(session) {
        return false;
    }
    let writer = Session::TRANSACTIONS + Session::WRITER * Session::TRANSACTION_BYTES;
    let kind = octets::u64_at(session, writer);
    kind != 1 && kind <= 3
}

// Whether the tables of a session are in range.
#[tactic(auto, unfolding(crate::specs::Session::tables_fit))]
fn tables_fit(session: &[u8]) -> bool
    requires { 38728 ≤ length session.now }
    ensures { result ≡ tables_fit session.now }
{
    names_fit(session, Session::NAMES) && kinds_fit(session) && tapes_fit(session)
}

// Whether a session's area keeps the layout rule and a session was begun in it.
#[tactic(auto, unfolding(crate::specs::Session::begun))]
pub fn is_begun_session(session: &[u8]) -> bool
    ensures { result ≡ begun session.now }
{
    Session::BYTES <= session.len()
        && octets::u64_at(session, 0) == Session::MARK
        && tables_fit(session)
}

// Whether a session's area keeps the layout rule. Where no session was begun, nothing but the first
// word is looked at.
#[tactic(auto, unfolding(crate::specs::Session::sound))]
pub fn is_sound_session(session: &[u8]) -> bool
    ensures { result ≡ sound session.now }
{
    Session::BYTES <= session.len()
        && (octets::u64_at(session, 0) == 0 || is_begun_session(session))
}
