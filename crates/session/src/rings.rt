// The rings' bytes, apart from their bookkeeping.
ghost use Rattle.std.specs.Prelude.{◌≡◌, ◌+◌, ◌≤◌, ◌<◌, length};
ghost use Rattle.layout.specs.Session.{session_bytes};
ghost use Rattle.ring_buffer.specs.Ring.{Sound};
ghost use Rattle.session.specs.Rows.{ring_bytes, fill_ring, push_ring};

use layout::Session;
use ring_buffer::RingBuffer;

// The bytes that a tape's ring has room in, as a part of the area.
pub fn ring_part<'a>(session: &'a [u8], tape: usize) -> &'a [u8]
    requires { (session_bytes ≤ length session.now) × (tape < 8) }
    ensures { result.now ≡ ring_bytes session.now tape }
{
    let at = Session::RINGS + tape * Session::RING_BYTES;
    &session[at..at + Session::RING_BYTES]
}

// Bytes copied to a place of a tape's ring: what a cache is filled with when its tape is opened.
pub fn fill_ring(session: &mut [u8], tape: usize, place: usize, src: &[u8])
    requires { ((session_bytes ≤ length session.old) × (tape < 8)) × (place + length src.now ≤ 4096) }
    ensures { session.new ≡ fill_ring session.old tape place src.now }
{
    octets::copy_in(
        session,
        Session::RINGS + tape * Session::RING_BYTES + place,
        src,
    );
}

// Bytes pushed behind those that a tape's ring holds, past its end from its beginning on. The
// bookkeeping is the caller's to put.
pub fn push_ring(session: &mut [u8], tape: usize, ring: RingBuffer, src: &[u8])
    requires { ((session_bytes ≤ length session.old) × (tape < 8)) × (Sound ring 4096 × (length src.now ≤ ring.capacity)) }
    ensures { session.new ≡ push_ring session.old tape ring src.now }
{
    let at = Session::RINGS + tape * Session::RING_BYTES;
    ring_buffer::push_bytes(ring, &mut session[at..at + Session::RING_BYTES], src);
}
