// The session: what the store keeps between calls beside the disk, in a lent area
// (`docs/LAYOUT.md`). Rows go in and out as values; nobody above this crate computes an offset in it.
//
// `specs/Rows.antt` says what each function reads and what the area holds after it writes, byte by
// byte; `specs/Meaning.antt` says what a session's bytes mean, and `specs/MeaningLaws.antt` what each
// write does to that. `specs/KeepLaws.antt`: a session that keeps the layout rule keeps it, if the
// row that is put is in range. The functions are called on areas that are long enough, those that
// look at names on areas that keep the rule (`layout::is_begun_session`). Proved, and nothing is
// assumed.
#![tactic(auto)]

mod head;
mod names;
mod rings;
mod starting;
mod tape_rows;
mod tracking;
mod transactions;
mod views;

pub use head::{Head, get_head, put_head};
pub use names::{find_tape, put_tape_name, tape_name};
pub use rings::{fill_ring, push_ring, ring_part};
pub use starting::{begin, end};
pub use tape_rows::{
    Handle, Staged, find_handle, get_handle, get_ring, get_staged, put_handle, put_ring, put_staged,
};
pub use tracking::{Tracking, get_tracking, put_tracking};
pub use transactions::{
    Kind, Transaction, find_transaction, free_reader, get_transaction, put_transaction,
};
pub use views::{View, copy_view, get_view, put_view};
