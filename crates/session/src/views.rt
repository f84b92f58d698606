// Views: for each tape place whether the tape is listed, its length and its start. Each transaction
// place has one, and behind them stands the list of the last commit.
ghost use Rattle.std.specs.Prelude.{◌≡◌, ◌≤◌, ◌<◌, length};
ghost use Rattle.layout.specs.Session.{session_bytes};
ghost use Rattle.session.specs.Meaning.{no_view};
ghost use Rattle.session.specs.Rows.{view_of, put_view, copy_view};

use layout::Session;

#[derive(Clone, Copy, Debug, PartialEq, Eq)]
pub struct View {
    // No `Option` of the two below: `view_of` and `put_view` say all three words of every row.
    pub listed: bool,
    pub len: u64,
    pub start: u64,
}

impl View {
    // A tape that is not in the view.
    pub fn absent() -> Self
        ensures { result ≡ no_view }
    {
        View {
            listed: false,
            len: 0,
            start: 0,
        }
    }
}

// What the view of a transaction place, or the list, says of a tape.
pub fn get_view(session: &[u8], whose: usize, tape: usize) -> View
    requires { (session_bytes ≤ length session.now) × ((whose < 18) × (tape < 8)) }
    ensures { result ≡ view_of session.now whose tape }
{
    let at = Session::VIEWS + whose * Session::VIEW_BYTES + tape * Session::VIEW_ROW;
    View {
        listed: octets::u64_at(session, at) != 0,
        len: octets::u64_at(session, at + 8),
        start: octets::u64_at(session, at + 16),
    }
}

pub fn put_view(session: &mut [u8], whose: usize, tape: usize, row: View)
    requires { (session_bytes ≤ length session.old) × ((whose < 18) × (tape < 8)) }
    ensures { session.new ≡ put_view session.old whose tape row }
{
    let at = Session::VIEWS + whose * Session::VIEW_BYTES + tape * Session::VIEW_ROW;
    octets::put_u64(session, at, u64::from(row.listed));
    octets::put_u64(session, at + 8, row.len);
    octets::put_u64(session, at + 16, row.start);
}

// A whole view copied over another: the view that a transaction begins with.
pub fn copy_view(session: &mut [u8], from: usize, to: usize)
    requires { (session_bytes ≤ length session.old) × ((from < 18) × (to < 18)) }
    ensures { session.new ≡ copy_view session.old from to }
{
    let at = Session::VIEWS + from * Session::VIEW_BYTES;
    let mut rows = [0u8; Session::VIEW_BYTES];
    rows.copy_from_slice(&session[at..at + Session::VIEW_BYTES]);
    octets::copy_in(session, Session::VIEWS + to * Session::VIEW_BYTES, &rows);
}
