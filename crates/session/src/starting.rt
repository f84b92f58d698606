// A session's end, and a new session: no transactions, no handles, numbers from 1, and the tapes of a list.
ghost use Rattle.std.specs.Prelude.{◌≡◌, ◌≤◌, ◌<◌, length};
ghost use Rattle.metadata.specs.Struct.{meaning, tapes_of};
ghost use Rattle.layout.specs.Session.{session_bytes};
ghost use Rattle.session.specs.Begin.{ended, cleared, listed, begin_session};

use crate::head::{Head, put_head};
use crate::names::put_tape_name;
use crate::views::{View, put_view};
use layout::Session;
use metadata::{Side, TapeList, TapeMetadata};

// No session from now on; whatever else stands in the area is left.
pub fn end(session: &mut [u8])
    requires { session_bytes ≤ length session.old }
    ensures { session.new ≡ ended session.old }
{
    octets::put_u64(session, 0, 0);
}

// Everything but the rings' bytes.
fn clear(session: &mut [u8], epoch: u64, side: Side)
    requires { session_bytes ≤ length session.old }
    ensures { session.new ≡ cleared session.old epoch side }
{
    octets::fill_zero(session, 0, Session::RINGS);
    octets::put_u64(session, 0, Session::MARK);
    put_head(
        session,
        Head {
            epoch,
            cut: false,
            side,
            last_transaction: 0,
            last_handle: 0,
        },
    );
}

// A tape of the list in a tape place.
fn list_tape(session: &mut [u8], place: usize, tape: TapeMetadata)
    requires { (session_bytes ≤ length session.old) × (place < 8) }
    ensures { session.new ≡ listed session.old place (meaning tape) }
{
    let letters = tape.letters.min(TapeMetadata::MOST_LETTERS);
    put_tape_name(session, place, &tape.name[..letters]);
    put_view(
        session,
        Session::LIST,
        place,
        View {
            listed: true,
            len: tape.len,
            start: tape.start,
        },
    );
}

pub fn begin(session: &mut [u8], epoch: u64, side: Side, list: TapeList)
    requires { session_bytes ≤ length session.old }
    ensures { session.new ≡ begin_session session.old epoch side (tapes_of list) }
{
    clear(session, epoch, side);
    let count = list.count.min(TapeList::MOST_NAMES);
    for (place, tape) in list.tapes[..count].iter().enumerate() {
        list_tape(session, place, *tape);
    }
}
