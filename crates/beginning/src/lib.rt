// The calls that begin something: a disk (`format`), a session (`store`), a transaction (`append`,
// `reader`, `truncate`). Each takes the two lent areas, with any bytes in them, and decides every
// refusal in document 01's order before it writes the first byte.
//
// `specs/` says for each call, on every input, what it answers and what the areas then hold. Proved,
// and nothing is assumed.
//
// Disk and session stay two parameters of every call: C lends them so, and most calls lend the disk to be
// read alone.
//
// What the proofs of this crate see through is named once:
#![tactic(auto, unfolding(crate::specs::Transactions::usable, crate::specs::Transactions::check_usable, crate::specs::Transactions::is_open_at, crate::specs::Transactions::is_older, crate::specs::Transactions::waiting_for, crate::specs::Transactions::begun_at, crate::specs::Transactions::begin_at, crate::specs::Calls::append_call, crate::specs::Calls::truncate_call, crate::specs::Calls::reader_call, crate::specs::Disks::format_call, crate::specs::Sessions::both_sound, crate::specs::Sessions::store_call))]

mod calls;
mod disks;
mod sessions;
mod transactions;

pub use calls::{append, reader, truncate};
pub use disks::format;
pub use sessions::store;
pub use transactions::{check_usable, is_open, is_usable};
