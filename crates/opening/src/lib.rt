// The call that opens a tape, known or new, in an append, and gives it a handle.
//
// `specs/` says, on every input, what it answers and what the areas then hold. Proved, and nothing is
// assumed.
#![tactic(auto)]

mod calls;
mod directory;
mod names_left;
mod placing;
mod shape;

pub use calls::open;
pub use shape::Opening;
