// The session's own fields.
ghost use Rattle.std.specs.Prelude.{◌≡◌, ◌≤◌, length};
ghost use Rattle.layout.specs.Session.{session_bytes};
ghost use Rattle.session.specs.Rows.{side_for, side_word, head_of, put_head};

use layout::Session;
use metadata::Side;

#[derive(Clone, Copy, Debug, PartialEq, Eq)]
pub struct Head {
    // That of the last commit.
    pub epoch: u64,
    // Whether the last commit was a truncate's.
    pub cut: bool,
    // The metadata file that is written next.
    pub side: Side,
    // The last number that a transaction got; 0 before the first.
    pub last_transaction: u64,
    // The last number that a handle got; 0 before the first.
    pub last_handle: u64,
}

// The sides' numbers are the area's (docs/LAYOUT.md), and `Side` is the metadata's, so no `From` stands here; a type of this crate
// round it would be no plainer.
fn side_for(word: u64) -> Side
    ensures { result ≡ side_for word }
{
    match word {
        0 => Side::Left,
        _ => Side::Right,
    }
}

fn side_word(side: Side) -> u64
    ensures { result ≡ side_word side }
{
    match side {
        Side::Left => 0,
        Side::Right => 1,
    }
}

pub fn get_head(session: &[u8]) -> Head
    requires { session_bytes ≤ length session.now }
    ensures { result ≡ head_of session.now }
{
    Head {
        epoch: octets::u64_at(session, Session::HEAD),
        cut: octets::u64_at(session, Session::HEAD + 8) != 0,
        side: side_for(octets::u64_at(session, Session::HEAD + 16)),
        last_transaction: octets::u64_at(session, Session::HEAD + 24),
        last_handle: octets::u64_at(session, Session::HEAD + 32),
    }
}

pub fn put_head(session: &mut [u8], head: Head)
    requires { session_bytes ≤ length session.old }
    ensures { session.new ≡ put_head session.old head }
{
    octets::put_u64(session, Session::HEAD, head.epoch);
    octets::put_u64(session, Session::HEAD + 8, u64::from(head.cut));
    octets::put_u64(session, Session::HEAD + 16, side_word(head.side));
    octets::put_u64(session, Session::HEAD + 24, head.last_transaction);
    octets::put_u64(session, Session::HEAD + 32, head.last_handle);
}
