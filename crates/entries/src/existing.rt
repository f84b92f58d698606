// Whether an append sees a tape of a name.
ghost use Rattle.std.specs.Prelude.{◌≡◌};
ghost use Rattle.layout.specs.Session.{Begun};
ghost use Rattle.entries.specs.Existing.{sees, exists_call};

use answers::Refusal;
use layout::Session;
use session::Kind;

fn is_seen(session: &[u8], name: &[u8]) -> bool
    requires { Begun session.now }
    ensures { result ≡ sees session.now name.now }
{
    if !metadata::is_name(name) {
        return false;
    }
    let Some(tape) = session::find_tape(session, name) else {
        return false;
    };
    staging::seen_by(session, Session::WRITER, tape).listed
}

// Answers 1 if the append sees a tape of this name, else 0. Refused: 1, 2.
pub fn tape_exists(
    disk: &[u8],
    session: &[u8],
    transaction: u64,
    name: &[u8],
) -> Result<u64, Refusal>
    ensures { result ≡ exists_call disk.now session.now transaction name.now }
{
    beginning::check_usable(disk, session)?;
    if !staging::is_writer(session, Kind::Append, transaction) {
        return Err(Refusal::Unknown);
    }
    Ok(u64::from(is_seen(session, name)))
}
