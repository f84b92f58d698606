// RFC 7693 section 3.3: the digest of a key and a message.
ghost use Rattle.std.specs.Prelude.{◌≡◌, ◌+◌, ◌-◌, ◌≤◌, [], length};
ghost use Rattle.blake2b.specs.Blake2b.{bytes_of, start, dd, finished};
ghost use Rattle.blake2b.specs.Message.{all_of};
ghost use Rattle.blake2b.specs.Digest.{written, hashed};

use crate::compression::{IV, compress};
use crate::message::Input;
use std::error::Error;
use std::fmt;

// Why there is no digest. The buffer is then left as it was.
#[derive(Clone, Copy, Debug, PartialEq, Eq)]
pub enum HashError {
    DigestLength,
    KeyLength,
    ShortBuffer,
    HeadLength,
}

impl fmt::Display for HashError {
    fn fmt<W: fmt::Write>(&self, f: &mut fmt::Formatter<W>) -> fmt::Result {
        match self {
            HashError::DigestLength => write!(f, "a digest has 1 to 64 bytes"),
            HashError::KeyLength => write!(f, "a key has at most 64 bytes"),
            HashError::ShortBuffer => write!(f, "the buffer is shorter than the digest"),
            HashError::HeadLength => write!(f, "a head has at most 128 bytes"),
        }
    }
}

impl Error for HashError {}

// h before the first block: IV, with the first word of the parameter block.
fn start(kk: usize, nn: usize) -> [u64; 8]
    requires { (kk ≤ 64) × (nn ≤ 64) }
    ensures { result ≡ start kk nn }
{
    let mut h = IV;
    h[0] = h[0] ^ 0x0101_0000 ^ ((kk as u64) << 8) ^ nn as u64;
    h
}

// The bytes of h, lowest first.
fn bytes_of(h: &[u64; 8]) -> [u8; 64]
    ensures { result ≡ bytes_of h.now }
{
    let mut bytes = [0u8; 64];
    for (i, word) in h.iter().enumerate() {
        octets::put_u64(&mut bytes, 8 * i, *word);
    }
    bytes
}

// h after all blocks: each but the last with the count of bytes so far, the last with its flag.
fn absorb(nn: usize, input: &Input) -> [u64; 8]
    requires { nn ≤ 64 }
    ensures { let d = input.now in result ≡
        finished (start (length d.key.now) nn)
        (all_of d.key.now d.head.now d.tail.now)
        (dd (length d.key.now) (length d.head.now + length d.tail.now) - 1) }
{
    let total = input.len();
    let mut h = start(input.key.len(), nn);
    // All blocks but the last are whole; where there are no bytes, there is one block of zeros.
    let last = total.saturating_sub(1) / 128;
    for i in 0..last {
        let at = 128 * i;
        let block = input.block_at(at);
        compress(&mut h, &block, (at + 128) as u64, false);
    }
    let block = input.block_at(128 * last);
    compress(&mut h, &block, total as u64, true);
    h
}

// BLAKE2b of nn bytes of a message that comes in two parts, written to the front of out. A head of
// at most a block lets a caller put its own words before bytes that it has been lent.
// nn stands beside out, and is not its length: `hashed` has an answer for an out that is shorter.
#[tactic(auto, using(crate::proofs::Refusals::refusals))]
pub fn blake2b_headed(
    out: &mut [u8],
    nn: usize,
    key: &[u8],
    head: &[u8],
    tail: &[u8],
) -> Result<(), HashError>
    ensures { hashed nn key.now head.now tail.now out.old ≡ written result out.new }
{
    if nn < 1 || 64 < nn {
        return Err(HashError::DigestLength);
    }
    if 64 < key.len() {
        return Err(HashError::KeyLength);
    }
    if 128 < head.len() {
        return Err(HashError::HeadLength);
    }
    if out.len() < nn {
        return Err(HashError::ShortBuffer);
    }
    let h = absorb(nn, &Input { key, head, tail });
    let bytes = bytes_of(&h);
    octets::copy_in(out, 0, &bytes[..nn]);
    Ok(())
}

// BLAKE2b of nn bytes of a message, written to the front of out.
pub fn blake2b(out: &mut [u8], nn: usize, key: &[u8], message: &[u8]) -> Result<(), HashError>
    ensures { hashed nn key.now [] message.now out.old ≡ written result out.new }
{
    blake2b_headed(out, nn, key, &message[..0], message)
}
