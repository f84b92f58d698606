// A tape's row: its handle, the ring's bookkeeping, and what the open transaction has staged.
ghost use Rattle.std.specs.Prelude.{◌≡◌, ◌≤◌, ◌<◌, length};
ghost use Rattle.layout.specs.Session.{session_bytes};
ghost use Rattle.session.specs.Meaning.{no_handle, untouched};
ghost use Rattle.session.specs.Rows.{handle_of, put_handle, ring_of, put_ring, staged_of, put_staged, is_handle, find_handle};

use layout::Session;
use ring_buffer::RingBuffer;

#[derive(Clone, Copy, Debug, PartialEq, Eq)]
pub struct Handle {
    // 0 if the tape is not open in this session. No `Option`: `handle_of` and `put_handle` say all three
    // words of every row.
    pub number: u64,
    // The sizes that the tape was opened with.
    pub entry: u64,
    pub file_size: u64,
}

#[derive(Clone, Copy, Debug, PartialEq, Eq)]
pub struct Staged {
    // Whether the open transaction touched the tape; else the other fields mean nothing. No `Option` of
    // them: `staged_of` and `put_staged` say all five words of every row.
    pub touched: bool,
    // The tape's length when the transaction got it.
    pub base: u64,
    pub len: u64,
    pub start: u64,
    // How many of the ring's last bytes the files lack.
    pub unwritten: usize,
}

impl Handle {
    // A tape that is not open.
    pub fn none() -> Self
        ensures { result ≡ no_handle }
    {
        Handle {
            number: 0,
            entry: 0,
            file_size: 0,
        }
    }
}

impl Staged {
    // A tape that the open transaction has left alone.
    pub fn untouched() -> Self
        ensures { result ≡ untouched }
    {
        Staged {
            touched: false,
            base: 0,
            len: 0,
            start: 0,
            unwritten: 0,
        }
    }
}

pub fn get_handle(session: &[u8], tape: usize) -> Handle
    requires { (session_bytes ≤ length session.now) × (tape < 8) }
    ensures { result ≡ handle_of session.now tape }
{
    let at = Session::TAPES + tape * Session::TAPE_BYTES;
    Handle {
        number: octets::u64_at(session, at),
        entry: octets::u64_at(session, at + 8),
        file_size: octets::u64_at(session, at + 16),
    }
}

pub fn put_handle(session: &mut [u8], tape: usize, row: Handle)
    requires { (session_bytes ≤ length session.old) × (tape < 8) }
    ensures { session.new ≡ put_handle session.old tape row }
{
    let at = Session::TAPES + tape * Session::TAPE_BYTES;
    octets::put_u64(session, at, row.number);
    octets::put_u64(session, at + 8, row.entry);
    octets::put_u64(session, at + 16, row.file_size);
}

pub fn get_ring(session: &[u8], tape: usize) -> RingBuffer
    requires { (session_bytes ≤ length session.now) × (tape < 8) }
    ensures { result ≡ ring_of session.now tape }
{
    let at = Session::TAPES + tape * Session::TAPE_BYTES + Session::RING;
    RingBuffer {
        capacity: octets::u64_at(session, at) as usize,
        start: octets::u64_at(session, at + 8) as usize,
        len: octets::u64_at(session, at + 16) as usize,
        first: octets::u64_at(session, at + 24),
    }
}

pub fn put_ring(session: &mut [u8], tape: usize, row: RingBuffer)
    requires { (session_bytes ≤ length session.old) × (tape < 8) }
    ensures { session.new ≡ put_ring session.old tape row }
{
    let at = Session::TAPES + tape * Session::TAPE_BYTES + Session::RING;
    octets::put_u64(session, at, row.capacity as u64);
    octets::put_u64(session, at + 8, row.start as u64);
    octets::put_u64(session, at + 16, row.len as u64);
    octets::put_u64(session, at + 24, row.first);
}

pub fn get_staged(session: &[u8], tape: usize) -> Staged
    requires { (session_bytes ≤ length session.now) × (tape < 8) }
    ensures { result ≡ staged_of session.now tape }
{
    let at = Session::TAPES + tape * Session::TAPE_BYTES + Session::STAGED;
    Staged {
        touched: octets::u64_at(session, at) != 0,
        base: octets::u64_at(session, at + 8),
        len: octets::u64_at(session, at + 16),
        start: octets::u64_at(session, at + 24),
        unwritten: octets::u64_at(session, at + 32) as usize,
    }
}

pub fn put_staged(session: &mut [u8], tape: usize, row: Staged)
    requires { (session_bytes ≤ length session.old) × (tape < 8) }
    ensures { session.new ≡ put_staged session.old tape row }
{
    let at = Session::TAPES + tape * Session::TAPE_BYTES + Session::STAGED;
    octets::put_u64(session, at, u64::from(row.touched));
    octets::put_u64(session, at + 8, row.base);
    octets::put_u64(session, at + 16, row.len);
    octets::put_u64(session, at + 24, row.start);
    octets::put_u64(session, at + 32, row.unwritten as u64);
}

// Whether a tape is open under this handle's number.
fn is_handle(session: &[u8], tape: usize, number: u64) -> bool
    requires { (session_bytes ≤ length session.now) × (tape < 8) }
    ensures { result ≡ is_handle session.now number tape }
{
    let at = Session::TAPES + tape * Session::TAPE_BYTES;
    number != 0 && octets::u64_at(session, at) == number
}

// The tape that has a handle; none has the number 0.
pub fn find_handle(session: &[u8], number: u64) -> Option<usize>
    requires { session_bytes ≤ length session.now }
    ensures { result ≡ find_handle session.now number }
{
    octets::first(
        0,
        Session::MOST_TAPES,
        |tape| is_handle(session, tape, number),
    )
}
