// Bytes in lent memory: 32- and 64-bit numbers in them, lowest byte first, copies, fills and
// comparisons. Everything above stores and reads through these functions, so that no other crate
// takes a number apart into bytes.
//
// Each contract over bytes is an equation with a definition of `specs/`: `num_at` for what is read,
// `put` for what is written (a number, a copy and a fill are each a `put`), `same_bytes` and
// `comes_before` for comparisons; `searches.rt` says what its own are. Proved, and nothing is assumed.
// The callers keep each place inside its slice.
#![tactic(auto)]

mod searches;

ghost use Rattle.std.specs.Prelude.{◌≡◌, ◌+◌, ◌-◌, ◌≤◌, ◌<◌, min, max, length, replicate};
ghost use Rattle.octets.specs.Bytes.{put};
ghost use Rattle.octets.specs.Number.{num_at, put_num};
ghost use Rattle.octets.specs.Compare.{same_bytes, comes_before};

pub use searches::{all, count, first};

// The number in the eight bytes of s from at on.
pub fn u64_at(s: &[u8], at: usize) -> u64
    requires { at + 8 ≤ length s.now }
    ensures { result ≡ num_at 8 s.now at }
{
    u64::from_le_bytes([
        s[at],
        s[at + 1],
        s[at + 2],
        s[at + 3],
        s[at + 4],
        s[at + 5],
        s[at + 6],
        s[at + 7],
    ])
}

// The number in the four bytes of s from at on. No generic over the width, here and in `put_u32`: each
// body is one call of std's function for its type.
pub fn u32_at(s: &[u8], at: usize) -> u32
    requires { at + 4 ≤ length s.now }
    ensures { result ≡ num_at 4 s.now at }
{
    u32::from_le_bytes([s[at], s[at + 1], s[at + 2], s[at + 3]])
}

// v in the eight bytes of s from at on.
pub fn put_u64(s: &mut [u8], at: usize, v: u64)
    requires { at + 8 ≤ length s.old }
    ensures { s.new ≡ put_num 8 s.old at v }
{
    s[at..at + 8].copy_from_slice(&v.to_le_bytes());
}

// v in the four bytes of s from at on.
pub fn put_u32(s: &mut [u8], at: usize, v: u32)
    requires { at + 4 ≤ length s.old }
    ensures { s.new ≡ put_num 4 s.old at v }
{
    s[at..at + 4].copy_from_slice(&v.to_le_bytes());
}

// src, copied into s from at on. No `copy_from_slice`: it was tried, and the archive for C then asks the
// C library for `memmove` too, beside `memcpy` and `memset`.
pub fn copy_in(s: &mut [u8], at: usize, src: &[u8])
    requires { at + length src.now ≤ length s.old }
    ensures { s.new ≡ put s.old at src.now }
{
    for (j, byte) in src.iter().enumerate() {
        s[at + j] = *byte;
    }
}

// Zeros in s from one place up to another; none where the second is not above the first. This and the two
// below are one call of std's each; they stand under the definitions that every contract above cites.
pub fn fill_zero(s: &mut [u8], from: usize, to: usize)
    requires { to ≤ length s.old }
    ensures { s.new ≡ put s.old from (replicate (to - from) 0) }
{
    if from < to {
        s[from..to].fill(0);
    }
}

// Whether a and b are as long as each other and hold the same bytes.
pub fn same_bytes(a: &[u8], b: &[u8]) -> bool
    ensures { result ≡ same_bytes a.now b.now }
{
    a == b
}

// Whether a comes before b in the order of their bytes; a text comes before every longer text
// that it begins.
pub fn comes_before(a: &[u8], b: &[u8]) -> bool
    ensures { result ≡ comes_before a.now b.now }
{
    a < b
}
