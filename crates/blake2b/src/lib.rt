// BLAKE2b as RFC 7693 has it: any message, a digest of 1 to 64 bytes, with or without a key of up to
// 64 bytes. No memory is allocated, and one block is held at a time.
//
// `specs/` is sections 2 and 3 of the RFC in pure definitions, with its names; the code is proved
// equal to them, and nothing is assumed.
#![tactic(auto)]

mod compression;
mod digest;
mod message;
mod mixing;

pub use digest::{HashError, blake2b, blake2b_headed};
