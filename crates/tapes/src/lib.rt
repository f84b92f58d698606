// The store as a static library for C and Rust (`rt lib`): every call on numbers and byte
// slices. A slice is a pointer and a length, in this order; a call answers a code, document 01's number
// or 0, and a value. No function has a `requires`: any memory may be lent, and it is either served or
// refused.
//
// Each contract is that of the call below it, in numbers (`specs/Numbers.antt`). Proved, and nothing is
// assumed.
#![tactic(auto)]

mod begins;
mod ends;
mod numbers;
mod reads;
mod sizes;
mod writes;

pub use begins::{tapes_append, tapes_format, tapes_reader, tapes_store, tapes_truncate};
pub use ends::{tapes_commit, tapes_drop};
pub use numbers::Reply;
pub use reads::{
    tapes_exists, tapes_len, tapes_pop_entry, tapes_read_entries, tapes_read_entry, tapes_start,
};
pub use sizes::{tapes_disk_bytes, tapes_session_bytes};
pub use writes::{
    tapes_append_entries, tapes_drop_entries, tapes_open, tapes_shift_start, tapes_truncate_tape,
};
