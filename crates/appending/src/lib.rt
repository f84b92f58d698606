// The call that appends entries to a tape, and the rule of 15: whether the disk has the slots that the
// staged bytes of all tapes need.
//
// `specs/` says for the call, on every input, what it answers and what the areas then hold. Proved,
// and nothing is assumed.
//
// What the proofs of this crate see through, and the lemmas that they share, are named once:
#![tactic(auto, using(staging::specs::Ways::held_entry, staging::specs::Ways::entry_size), unfolding(crate::specs::Room::lacking_of, crate::specs::Calls::put_on, crate::specs::Calls::append_on, crate::specs::Calls::put_call, beginning::specs::Transactions::check_usable, staging::specs::Guards::writer_is, staging::specs::Guards::tape_to_change, staging::specs::Guards::listed_by, staging::specs::Seeing::writes))]

mod calls;
mod room;

pub use calls::append_entries;
pub use room::no_room;
