// What a transaction sees of a tape, and what an open append or truncate stages without writing a file:
// `tape_len`, `tape_start`, `shift_start`, `truncate_tape`, `drop_entries`. Lengths, starts and indexes
// are in entries of the handle's size. Each call takes the two lent areas, with any bytes in them, and
// decides every refusal in document 01's order before it writes the first byte.
//
// `specs/` says for each call, on every input, what it answers and what the session then holds. Proved,
// and nothing is assumed.
//
// What the proofs of this crate see through, and the lemma that they share, are named once:
#![tactic(auto, using(crate::specs::Ways::held_entry), unfolding(beginning::specs::Transactions::check_usable, crate::specs::Guards::writer_is, crate::specs::Seeing::writes, crate::specs::Seeing::cuts, crate::specs::Seeing::seen_by, crate::specs::Seeing::touched_as, crate::specs::Seeing::len_on, crate::specs::Seeing::start_on, crate::specs::Seeing::len_call, crate::specs::Seeing::start_call, crate::specs::Guards::tape_to_read, crate::specs::Guards::tape_to_change, crate::specs::Guards::listed_by, crate::specs::Guards::offset_up_to, crate::specs::Shifting::shifted, crate::specs::Shifting::shift_on, crate::specs::Shifting::shift_call, crate::specs::Cutting::cut_to, crate::specs::Cutting::cut_on, crate::specs::Cutting::drop_on, crate::specs::Cutting::cut_call, crate::specs::Cutting::drop_call))]

mod cutting;
mod guards;
mod seeing;
mod shifting;

pub use cutting::{drop_entries, put_len, truncate_tape};
pub use guards::{is_cutting, is_writer, is_writing, listed_by, tape_to_change, tape_to_read};
pub use seeing::{is_append, seen_by, tape_len, tape_start, touched_as};
pub use shifting::shift_start;
