// The ring's bytes: pushed to, read from, and their two parts in tape order.
ghost use Rattle.std.specs.Prelude.{◌≡◌, ◌+◌, ◌≤◌, length};
ghost use Rattle.ring_buffer.specs.Ring.{Sound, around, nths, first_part, second_part};

use crate::bookkeeping::RingBuffer;

// Puts data behind the held bytes, past the end from the beginning on.
pub fn push_bytes(ring: RingBuffer, bytes: &mut [u8], data: &[u8])
    requires { Sound ring (length bytes.old) × (length «data».now ≤ ring.capacity) }
    ensures { bytes.new ≡ around ring.capacity bytes.old (ring.start + ring.len) «data».now }
{
    let end = (ring.start + ring.len) % ring.capacity;
    let room = ring.capacity - end;
    if data.len() <= room {
        octets::copy_in(bytes, end, data);
        return;
    }
    let (ahead, behind) = data.split_at(room);
    octets::copy_in(bytes, end, ahead);
    octets::copy_in(bytes, 0, behind);
}

// Fills out with the tape's bytes from the k-th behind the first index on, also above the held ones,
// where an old window's bytes still stand. A range longer than the ring is read round and round.
pub fn fill(ring: RingBuffer, bytes: &[u8], k: u64, out: &mut [u8])
    requires { Sound ring (length bytes.now) }
    ensures { out.new ≡ nths ring bytes.now k (length out.old) }
{
    let skipped = (k % ring.capacity as u64) as usize;
    let mut place = (ring.start + skipped) % ring.capacity;
    let wanted = out.len();
    let mut done = 0;
    // Tried with `chunks_mut` behind a first part: once it ends, a proof knows no element that it lent.
    while done < wanted {
        let n = (ring.capacity - place).min(wanted - done);
        octets::copy_in(out, done, &bytes[place..place + n]);
        done += n;
        place = 0;
    }
}

// The held bytes up to the ring's end.
pub fn first_part<'a>(ring: RingBuffer, bytes: &'a [u8]) -> &'a [u8]
    requires { Sound ring (length bytes.now) }
    ensures { result.now ≡ first_part ring bytes.now }
{
    let n = ring.len.min(ring.capacity - ring.start);
    &bytes[ring.start..ring.start + n]
}

// The held bytes from the ring's beginning on, which follow the first part in the tape.
pub fn second_part<'a>(ring: RingBuffer, bytes: &'a [u8]) -> &'a [u8]
    requires { Sound ring (length bytes.now) }
    ensures { result.now ≡ second_part ring bytes.now }
{
    &bytes[..ring.len.saturating_sub(ring.capacity - ring.start)]
}
