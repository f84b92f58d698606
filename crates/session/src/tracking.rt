// For each slot of the disk whether its tape tracks the file in it, and its mark.
ghost use Rattle.std.specs.Prelude.{◌≡◌, ◌≤◌, ◌<◌, length};
ghost use Rattle.layout.specs.Session.{session_bytes};
ghost use Rattle.session.specs.Rows.{tracking_for, tracking_code, tracking_epoch, tracking_of, put_tracking};

use layout::Session;

#[derive(Clone, Copy, Debug, PartialEq, Eq)]
pub enum Tracking {
    Untracked,
    Tracked,
    // Tracked, and out of the tape's range since this epoch.
    Marked(u64),
}

// The two words are the area's (docs/LAYOUT.md).
impl Tracking {
    fn from_words(word: u64, epoch: u64) -> Tracking
        ensures { result ≡ tracking_for word epoch }
    {
        match word {
            0 => Tracking::Untracked,
            1 => Tracking::Tracked,
            _ => Tracking::Marked(epoch),
        }
    }

    // The epoch's is 0 where there is no mark.
    fn words(self) -> (u64, u64)
        ensures { (result.0 ≡ tracking_code self) × (result.1 ≡ tracking_epoch self) }
    {
        match self {
            Tracking::Untracked => (0, 0),
            Tracking::Tracked => (1, 0),
            Tracking::Marked(epoch) => (2, epoch),
        }
    }
}

pub fn get_tracking(session: &[u8], slot: usize) -> Tracking
    requires { (session_bytes ≤ length session.now) × (slot < 64) }
    ensures { result ≡ tracking_of session.now slot }
{
    let at = Session::TRACKING + slot * Session::TRACKING_BYTES;
    Tracking::from_words(octets::u64_at(session, at), octets::u64_at(session, at + 8))
}

pub fn put_tracking(session: &mut [u8], slot: usize, row: Tracking)
    requires { (session_bytes ≤ length session.old) × (slot < 64) }
    ensures { session.new ≡ put_tracking session.old slot row }
{
    let at = Session::TRACKING + slot * Session::TRACKING_BYTES;
    let (word, epoch) = row.words();
    octets::put_u64(session, at, word);
    octets::put_u64(session, at + 8, epoch);
}
