// The tape places: a name each. A place whose name is empty is free.
ghost use Rattle.std.specs.Prelude.{◌≡◌, ◌≤◌, ◌<◌, length};
ghost use Rattle.layout.specs.Session.{session_bytes, names_at};
ghost use Rattle.layout.specs.Names.{NamesFit, name, find_name, put_name};

use layout::Session;

// The name of a tape place, as a part of the area.
pub fn tape_name<'a>(session: &'a [u8], tape: usize) -> &'a [u8]
    requires { NamesFit session.now names_at × (tape < 8) }
    ensures { result.now ≡ name session.now names_at tape }
{
    layout::name_at(session, Session::NAMES, tape)
}

// The first tape place with this name; of the empty name, the first free place.
pub fn find_tape(session: &[u8], name: &[u8]) -> Option<usize>
    requires { NamesFit session.now names_at }
    ensures { result ≡ find_name session.now names_at name.now }
{
    layout::find_name(session, Session::NAMES, name)
}

pub fn put_tape_name(session: &mut [u8], tape: usize, name: &[u8])
    requires { ((session_bytes ≤ length session.old) × (tape < 8)) × (length name.now ≤ 24) }
    ensures { session.new ≡ put_name session.old names_at tape name.now }
{
    layout::put_name(session, Session::NAMES, tape, name);
}
