// The cache of a tape that is opened.
ghost use Rattle.std.specs.Prelude.{◌≡◌, ◌≤◌, ◌<◌, length};
ghost use Rattle.layout.specs.Session.{session_bytes};
ghost use Rattle.cached_tape.specs.Filling.{first_cached, filled_with};

use ring_buffer::RingBuffer;

// The index of the first byte that a cache holds of a tape that is opened.
pub fn first_cached(capacity: u64, len: u64, start: u64) -> u64
    ensures { result ≡ first_cached capacity len start }
{
    len.saturating_sub(capacity).max(start)
}

// A new ring of a capacity with these bytes of the tape from an index on.
pub fn fill_cache(session: &mut [u8], tape: usize, capacity: usize, first: u64, src: &[u8])
    requires { (session_bytes ≤ length session.old) × ((tape < 8) × (length src.now ≤ 4096)) }
    ensures { session.new ≡ filled_with session.old tape capacity first src.now }
{
    session::fill_ring(session, tape, 0, src);
    let ring = RingBuffer::new(capacity, first).reset(src.len(), first);
    session::put_ring(session, tape, ring);
}
