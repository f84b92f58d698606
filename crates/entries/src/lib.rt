// The calls that read: entries, one entry, the last entry of a tape that is being cut, and whether a
// tape exists. The areas are lent to be read alone, but for the cut that a pop stages.
//
// `specs/` says for each call, on every input, what it answers and what the buffer, and the session,
// then hold. Proved, and nothing is assumed.
//
// What the proofs of this crate see through, and the lemmas that they share, are named once:
#![tactic(auto, using(staging::specs::Ways::held_entry, staging::specs::Ways::entry_size), unfolding(beginning::specs::Transactions::check_usable, staging::specs::Seeing::writes, staging::specs::Seeing::cuts, staging::specs::Guards::writer_is, staging::specs::Guards::tape_to_read, staging::specs::Guards::tape_to_change, staging::specs::Guards::listed_by, crate::specs::Reads::serve_on, crate::specs::Reads::read_on, crate::specs::Reads::read_call, crate::specs::Reads::entry_call, crate::specs::Popping::pop_at, crate::specs::Popping::pop_on, crate::specs::Popping::pop_call, crate::specs::Existing::sees, crate::specs::Existing::exists_call))]

mod existing;
mod popping;
mod reads;

pub use existing::tape_exists;
pub use popping::pop_entry;
pub use reads::{read_entries, read_entry};
