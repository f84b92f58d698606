// The ring that caches the top of a tape (`src/tapes/cached_tape/ring_buffer.rs` of the Rust). The
// bookkeeping is a small value, which a push, a pop, a truncate and the step before a write take lent
// and update; the bytes are lent beside it, and only their first `capacity` count.
//
// `specs/Ring.antt` says what each function does. `specs/RingLaws.antt` has the laws: what a push
// keeps and what it overwrites, and where each byte of the tape stands after it. A ring is `Sound`
// with its bytes if it lies inside them and holds no more than its capacity; the layout rule of the
// session checks that. Proved, and nothing is assumed.
#![tactic(auto)]

mod bookkeeping;
mod bytes;

pub use bookkeeping::RingBuffer;
pub use bytes::{fill, first_part, push_bytes, second_part};
