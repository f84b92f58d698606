// A read across cache and files: from the cache's first index on it is the cache's.
ghost use Rattle.std.specs.Prelude.{◌≡◌, true, ◌≢◌, ◌+◌, ◌≤◌, ◌<◌, ◌^◌, length};
ghost use Rattle.layout.specs.Disk.{Sound};
ghost use Rattle.layout.specs.Session.{Begun, handle_number};
ghost use Rattle.session.specs.Rows.{ring_of};
ghost use Rattle.cached_tape.specs.Serving.{below_cache, can_serve, served};

// How many of so many bytes from an offset on lie below the cache's first index.
fn below_cache(session: &[u8], tape: usize, offset: u64, count: usize) -> usize
    requires { Begun session.now × (tape < 8) }
    ensures { result ≡ below_cache (ring_of session.now tape) offset count }
{
    let below = session::get_ring(session, tape)
        .first
        .saturating_sub(offset);
    count.min(below as usize)
}

// Whether so many bytes of a tape from an offset on can be read: those that are not the cache's have to
// stand in tracked files.
pub fn can_serve(disk: &[u8], session: &[u8], tape: usize, offset: u64, count: usize) -> bool
    requires { (Sound disk.now × Begun session.now) × (((tape < 8) × (handle_number session.now tape ≢ 0)) × (offset + count ≤ 2 ^ 64)) }
    ensures { result ≡ can_serve disk.now session.now tape offset count }
{
    let files = below_cache(session, tape, offset, count);
    let file_size = session::get_handle(session, tape).file_size;
    let name = session::tape_name(session, tape);
    rolling_tape::can_read(disk, session, true, name, file_size, offset, files)
}

// Fills out with a tape's bytes from an offset on.
pub fn serve(disk: &[u8], session: &[u8], tape: usize, offset: u64, out: &mut [u8])
    requires { ((Sound disk.now × Begun session.now) × ((tape < 8) × (handle_number session.now tape ≢ 0))) × ((offset + length out.old ≤ 2 ^ 64) × (can_serve disk.now session.now tape offset (length out.old) ≡ true)) }
    ensures { out.new ≡ served disk.now session.now tape offset (length out.old) }
{
    let files = below_cache(session, tape, offset, out.len());
    let file_size = session::get_handle(session, tape).file_size;
    let name = session::tape_name(session, tape);
    rolling_tape::read_run(disk, name, file_size, offset, &mut out[..files]);
    let ring = session::get_ring(session, tape);
    let bytes = session::ring_part(session, tape);
    let inside = offset.saturating_sub(ring.first);
    ring_buffer::fill(ring, bytes, inside, &mut out[files..]);
}
