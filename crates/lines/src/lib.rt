// The text that the driver reads and prints (document 01, "The driver"): a line's fields, its numbers
// and its hex, what a line says, and the reply to it. No function here reads or writes a file.
//
// Each contract is an equation with a definition of `specs/`; `specs/Worked.antt` has document 01's
// worked example. Proved, and nothing is assumed.
#![tactic(auto)]

mod calls;
mod hexadecimal;
mod number;
mod parts;
mod reply;
mod words;

pub use calls::{Call, is_long_read, parse_line};
pub use hexadecimal::{is_hex, put_bytes, put_hex};
pub use number::{parse_number, put_decimal};
pub use parts::{field, field_count};
pub use reply::{put_reply, put_unreadable_reply};
