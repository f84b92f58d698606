// The files of a tape (`src/tapes/rolling_tape.rs` of the Rust): a run of bytes written over them and
// read from them, which of them the tape tracks, marks and removal, and the room that is left for
// more. A tape's files are those of the directory of its name; which of them are tracked and marked
// stands in the session, by slot.
//
// `specs/` says what each function answers and what both areas then hold. Nothing is refused here: the
// calls above decide before the first byte is written. Proved, and nothing is assumed.
#![tactic(auto)]

mod reading;
mod removal;
mod room;
mod tracking;
mod writing;

pub use reading::{can_read, read_run};
pub use removal::remove_ripe;
pub use room::lacking_files;
pub use tracking::{Change, retrack};
pub use writing::{cover, write_run};
