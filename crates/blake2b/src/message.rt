// RFC 7693 section 3.3, padding: what is hashed is the key, padded to a block where there is one,
// and then the message, which comes in two parts. One block of it is laid out at a time.
ghost use Rattle.std.specs.Prelude.{◌≡◌, ◌+◌, ◌^◌, ◌<◌, ◌≤◌, length};
ghost use Rattle.blake2b.specs.Blake2b.{keyed, block_from};
ghost use Rattle.blake2b.specs.Message.{laid, all_of, Lengths};

// Lays the bytes of a part into a block: the block shows the data from at on, and the part stands
// in the data from the place `from` on. What of it lies outside the block is passed over.
fn lay(block: &mut [u8; 128], at: usize, part: &[u8], from: usize)
    requires { (at + 128 < 2 ^ 64) × (from + length part.now < 2 ^ 64) }
    ensures { block.new ≡ laid block.old at part.now from }
{
    let first = at.max(from);
    let stop = (at + 128).min(from + part.len());
    if first < stop {
        octets::copy_in(block, first - at, &part[first - from..stop - from]);
    }
}

// How many bytes the padded key takes.
fn key_room(key: &[u8]) -> usize
    requires { length key.now ≤ 64 }
    ensures room { result ≡ length (keyed key.now) }
    ensures most { result ≤ 128 }
{
    if key.is_empty() { 0 } else { 128 }
}

// What is hashed: the key, and the two parts of the message.
#[derive(Clone, Copy)]
pub(crate) struct Input<'a> {
    pub(crate) key: &'a [u8],
    pub(crate) head: &'a [u8],
    pub(crate) tail: &'a [u8],
    ghost lengths: { Lengths (length key.now) (length head.now) (length tail.now) },
}

impl Input<'_> {
    // How many bytes there are, the padded key's among them.
    pub(crate) fn len(&self) -> usize
        ensures bytes { let s = self.now in result ≡ length (all_of s.key.now s.head.now s.tail.now) }
        ensures fits { result + 128 < 2 ^ 64 }
    {
        key_room(self.key) + self.head.len() + self.tail.len()
    }

    // The block that starts at a place, padded with zeros.
    pub(crate) fn block_at(&self, at: usize) -> [u8; 128]
        requires { at + 128 < 2 ^ 64 }
        ensures { let s = self.now in result ≡ block_from (all_of s.key.now s.head.now s.tail.now) at }
    {
        let mut block = [0u8; 128];
        let room = key_room(self.key);
        lay(&mut block, at, self.key, 0);
        lay(&mut block, at, self.head, room);
        lay(&mut block, at, self.tail, room + self.head.len());
        block
    }
}
