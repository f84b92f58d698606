// RFC 7693 section 3.2: the compression function F.
ghost use Rattle.std.specs.Prelude.{◌≡◌, ◌+◌, ◌<◌};
ghost use Rattle.blake2b.specs.Constants.{IV};
ghost use Rattle.blake2b.specs.Blake2b.{words_from, work_vector, fold_from, F};

use crate::mixing::twelve_rounds;

pub(crate) const IV: [u64; 8] = [
    0x6a09e667f3bcc908,
    0xbb67ae8584caa73b,
    0x3c6ef372fe94f82b,
    0xa54ff53a5f1d36f1,
    0x510e527fade682d1,
    0x9b05688c2b3e6c1f,
    0x1f83d9abfb41bd6b,
    0x5be0cd19137e2179,
];

// A block as sixteen words.
fn words_of(block: &[u8; 128]) -> [u64; 16]
    ensures { result ≡ words_from 16 block.now 0 }
{
    let mut m = [0u64; 16];
    for (j, word) in m.iter_mut().enumerate() {
        *word = octets::u64_at(block, 8 * j);
    }
    m
}

// The work vector: h and IV, with the counter and the last-block flag in it. The counter's upper
// word is 0, since no message here has 2^64 bytes.
fn work_vector(h: &[u64; 8], t: u64, last: bool) -> [u64; 16]
    ensures { result ≡ work_vector h.now t last }
{
    let mut v = [0u64; 16];
    v[..8].copy_from_slice(h);
    v[8..].copy_from_slice(&IV);
    v[12] ^= t;
    if last {
        v[14] ^= u64::MAX;
    }
    v
}

// h[i] := h[i] ^ v[i] ^ v[i + 8].
fn fold(h: &mut [u64; 8], v: &[u64; 16])
    ensures { h.new ≡ fold_from 0 h.old v.now }
{
    for (i, word) in h.iter_mut().enumerate() {
        *word = *word ^ v[i] ^ v[i + 8];
    }
}

// The compression function F: h after one block, where t bytes have been read with it.
pub(crate) fn compress(h: &mut [u64; 8], block: &[u8; 128], t: u64, last: bool)
    ensures { h.new ≡ F h.old (words_from 16 block.now 0) t last }
{
    let m = words_of(block);
    let mut v = work_vector(h, t, last);
    twelve_rounds(&mut v, &m);
    fold(h, &v);
}
