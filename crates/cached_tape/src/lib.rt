// The cache over a tape's files (`src/tapes/cached_tape.rs` of the Rust): when staged bytes go to
// files, reads from cache and files, and the cache of a tape that is opened.
//
// `specs/` says what each function answers and what both areas then hold. Nothing is refused here: the
// calls above decide before the first byte is written. Proved, and nothing is assumed.
#![tactic(auto)]

mod filling;
mod flushing;
mod putting;
mod serving;

pub use filling::{fill_cache, first_cached};
pub use flushing::flush;
pub use putting::put_bytes;
pub use serving::{can_serve, serve};
