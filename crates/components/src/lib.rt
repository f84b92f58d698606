// The parts that a tape is made of, as definitions with their laws, and code where it is leaf code:
// which file an offset lies in, the parts of a run of bytes over files, a file's bytes after a write,
// marks and removal, epochs, the rule for slots, bounds in entries. Each is small and computes;
// document 01's examples 3 and 6 to 9 are rows over them (`examples`). Proved, and nothing is
// assumed.
#![tactic(auto)]

mod bounds;
mod pieces;
mod slots;

pub use bounds::{in_bounds, up_to};
pub use pieces::{Part, Parts, file_of, left_in, place_in};
pub use slots::files_covered;
