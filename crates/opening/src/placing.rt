// The tape's row, once nothing is left to be refused.
ghost use Rattle.std.specs.Prelude.{◌≡◌, Some, true, ℕ, ◌≤◌, ◌<◌, ◌^◌, ◌+◌, length, take};
ghost use Rattle.answers.specs.Outcome.{outcome};
ghost use Rattle.layout.specs.Disk.{Sound};
ghost use Rattle.layout.specs.Session.{session_bytes};
ghost use Rattle.session.specs.Rows.{head_of};
ghost use Rattle.rolling_tape.specs.Reading.{lies};
ghost use Rattle.opening.specs.Calls.{cached_from, cached_count, can_fill, cached_bytes, rowed, open_with, open_now};

use crate::directory::ready;
use crate::shape::{Opening, Shaped};
use answers::Refusal;
use layout::Session;
use session::{Handle, Head, Staged};

// Where a tape is opened: its place in the session, and the directory of its name, if there is one.
#[derive(Clone, Copy)]
pub struct Spot {
    pub tape: usize,
    pub directory: Option<usize>,
    ghost tape_low: { tape < 8 },
    ghost directory_low: { (place : ℕ) → directory ≡ Some place → place < 8 },
}

// The index of the first byte that the cache is filled with.
pub fn cached_from(o: Opening) -> u64
    ensures { result ≡ cached_from o }
{
    cached_tape::first_cached(o.cache, o.len, o.start)
}

// How many bytes it is filled with: of a tape that is not listed none.
pub fn cached_count(o: Opening) -> usize
    ensures { result ≡ cached_count o }
{
    if !o.listed {
        return 0;
    }
    o.len.saturating_sub(cached_from(o)) as usize
}

// Ring, staged record and handle of a tape in a place; the handle has the next number.
#[tactic(auto, unfolding(crate::specs::Calls::rowed))]
fn put_row(session: &mut [u8], tape: usize, o: Opening, src: &[u8])
    requires { ((session_bytes ≤ length session.old) × (tape < 8)) × ((length src.now ≤ 4096) × ((head_of session.old).last_handle + 1 < 2 ^ 64)) }
    ensures { session.new ≡ rowed session.old tape o src.now }
{
    let head = session::get_head(session);
    let number = head.last_handle + 1;
    cached_tape::fill_cache(session, tape, o.cache as usize, cached_from(o), src);
    session::put_staged(
        session,
        tape,
        Staged {
            touched: true,
            base: o.len,
            len: o.len,
            start: o.start,
            unwritten: 0,
        },
    );
    session::put_handle(
        session,
        tape,
        Handle {
            number,
            entry: o.entry,
            file_size: o.file_size,
        },
    );
    session::put_head(
        session,
        Head {
            last_handle: number,
            ..head
        },
    );
}

// The directory, the name and the row of a tape whose cache gets these bytes.
#[tactic(auto, unfolding(crate::specs::Calls::open_with))]
fn open_with(
    disk: &mut [u8],
    session: &mut [u8],
    o: Shaped,
    at: Spot,
    src: &[u8],
) -> Result<u64, Refusal>
    requires { (Sound disk.old × (session_bytes ≤ length session.old)) × ((length src.now ≤ 4096) × ((head_of session.old).last_handle + 1 < 2 ^ 64)) }
    ensures { open_with disk.old session.old o.entry.name.now o.entry.opening at.directory at.tape src.now ≡ outcome result disk.new session.new }
{
    let writer = session::get_transaction(session, Session::WRITER);
    let number = session::get_head(session).last_handle + 1;
    ready(disk, session, o.name, o.opening, writer.epoch, at.directory);
    session::put_tape_name(session, at.tape, o.name);
    put_row(session, at.tape, o.opening, src);
    Ok(number)
}

// The first bytes of out become those that the cache is filled with.
fn read_front(disk: &[u8], o: Shaped, out: &mut [u8])
    requires { Sound disk.now × ((cached_count o.opening ≤ length out.old) × (lies disk.now o.name.now o.opening.file_size (cached_from o.opening) (cached_count o.opening) ≡ true)) }
    ensures { (length out.new ≡ length out.old) × (take (cached_count o.entry.opening) out.new ≡ cached_bytes disk.now o.entry.name.now o.entry.opening) }
{
    let count = cached_count(o.opening);
    rolling_tape::read_run(
        disk,
        o.name,
        o.opening.file_size,
        cached_from(o.opening),
        &mut out[..count],
    );
}

// The same of an array that has room for every cache.
fn read_cached(disk: &[u8], o: Shaped, held: &mut [u8; Session::RING_BYTES])
    requires { Sound disk.now × (lies disk.now o.name.now o.opening.file_size (cached_from o.opening) (cached_count o.opening) ≡ true) }
    ensures { (length held.new ≡ 4096) × (take (cached_count o.entry.opening) held.new ≡ cached_bytes disk.now o.entry.name.now o.entry.opening) }
{
    // As a slice, since a proof learns there how many bytes it has.
    let whole: &mut [u8] = held;
    read_front(disk, o, whole);
}

// The cache's bytes are read before the directory is changed.
#[tactic(auto, unfolding(crate::specs::Calls::open_now))]
pub fn open_now(disk: &mut [u8], session: &mut [u8], o: Shaped, at: Spot) -> Result<u64, Refusal>
    requires { (Sound disk.old × (session_bytes ≤ length session.old)) × ((can_fill disk.old session.old o.name.now o.opening ≡ true) × ((head_of session.old).last_handle + 1 < 2 ^ 64)) }
    ensures { open_now disk.old session.old o.entry.name.now o.entry.opening at.directory at.tape ≡ outcome result disk.new session.new }
{
    let mut held = [0u8; Session::RING_BYTES];
    read_cached(disk, o, &mut held);
    let count = cached_count(o.opening);
    open_with(disk, session, o, at, &held[..count])
}
