// A put through the cache.
ghost use Rattle.std.specs.Prelude.{◌≡◌, ◌≢◌, ◌+◌, ◌≤◌, ◌<◌, ◌^◌, length};
ghost use Rattle.layout.specs.Disk.{Sound};
ghost use Rattle.layout.specs.Session.{Begun, handle_number, ring_len};
ghost use Rattle.ring_buffer.specs.Put.{unwritten_after};
ghost use Rattle.rolling_tape.specs.Removal.{areas};
ghost use Rattle.cached_tape.specs.Putting.{sent_to, cached_in, put_in};

use crate::flushing::{flush, write_through};
use ring_buffer::RingBuffer;
use session::Staged;

// What a put sends to the files: of one that fills the cache all that they lack and its own bytes, of
// one that would push unwritten bytes out those alone.
fn send(disk: &mut [u8], session: &mut [u8], place: usize, tape: usize, row: Staged, src: &[u8])
    requires { ((Sound disk.old × Begun session.old) × ((place < 8) × (tape < 8))) × ((handle_number session.old tape ≢ 0) × ((row.unwritten ≤ ring_len session.old tape) × (row.len + length src.now < 2 ^ 64))) }
    ensures { sent_to (areas disk.old session.old) place tape row src.now ≡ areas disk.new session.new }
{
    let capacity = session::get_ring(session, tape).capacity;
    let n = src.len();
    if capacity <= n {
        flush(disk, session, place, tape, row);
        let file_size = session::get_handle(session, tape).file_size;
        write_through(disk, session, place, file_size, row.len, src);
        return;
    }
    if capacity - n < row.unwritten {
        flush(disk, session, place, tape, row);
    }
}

// What a put leaves in the cache of a tape of a length: its last bytes.
fn cache(session: &mut [u8], tape: usize, len: u64, src: &[u8])
    requires { Begun session.old × ((tape < 8) × (handle_number session.old tape ≢ 0)) }
    ensures { session.new ≡ cached_in session.old tape len src.now }
{
    let ring = session::get_ring(session, tape).prepare_write(len);
    let n = src.len().min(ring.capacity);
    let by = src.len() - n;
    session::push_ring(session, tape, ring, &src[by..]);
    session::put_ring(session, tape, ring.push(n, by as u64));
}

// How many bytes the files lack after a put of n.
fn unwritten_after(ring: RingBuffer, unwritten: usize, n: usize) -> usize
    requires { unwritten ≤ ring.capacity }
    ensures { result ≡ unwritten_after ring unwritten n }
{
    if ring.capacity <= n {
        return 0;
    }
    if ring.capacity - n < unwritten {
        return n;
    }
    unwritten + n
}

// Bytes put behind a tape, of which `row` is what the writer has staged of it.
pub fn put_bytes(
    disk: &mut [u8],
    session: &mut [u8],
    place: usize,
    tape: usize,
    row: Staged,
    src: &[u8],
)
    requires { ((Sound disk.old × Begun session.old) × ((place < 8) × (tape < 8))) × ((handle_number session.old tape ≢ 0) × ((row.unwritten ≤ ring_len session.old tape) × (row.len + length src.now < 2 ^ 64))) }
    ensures { put_in (areas disk.old session.old) place tape row src.now ≡ areas disk.new session.new }
{
    let ring = session::get_ring(session, tape);
    let unwritten = unwritten_after(ring, row.unwritten, src.len());
    send(disk, session, place, tape, row, src);
    cache(session, tape, row.len, src);
    session::put_staged(
        session,
        tape,
        Staged {
            touched: true,
            len: row.len + src.len() as u64,
            unwritten,
            ..row
        },
    );
}
