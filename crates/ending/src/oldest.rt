// The oldest open reader's epoch.
ghost use Rattle.std.specs.Prelude.{◌≡◌, ◌+◌, ◌≤◌, ◌<◌, ◌^◌, length};
ghost use Rattle.layout.specs.Session.{session_bytes};
ghost use Rattle.session.specs.Rows.{head_of};
ghost use Rattle.ending.specs.Oldest.{oldest_of};

use layout::Session;

// With none open it is the session's epoch + 1.
pub fn oldest_of(session: &[u8]) -> u64
    requires { (session_bytes ≤ length session.now) × ((head_of session.now).epoch + 1 < 2 ^ 64) }
    ensures { result ≡ oldest_of session.now }
{
    let mut oldest: Option<u64> = None;
    for place in 0..Session::MOST_READERS {
        if beginning::is_open(session, place) {
            let epoch = session::get_transaction(session, place).epoch;
            oldest = Some(oldest.map_or(epoch, |other| other.min(epoch)));
        }
    }
    oldest.unwrap_or(session::get_head(session).epoch + 1)
}
