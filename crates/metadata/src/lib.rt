// The metadata record (`src/metadata.rs` of the Rust): the list of tapes, its Borsh encoding, the
// record around it with its BLAKE2b hash, and the choice between the two files left and right.
//
// `specs/` says what each function answers and what its buffer then holds; `specs/RoundTrip.antt`
// has the theorems: what was written is read back, a list that decodes encodes to the same bytes.
// No public function has a `requires`: a list that may not be stored, a short buffer and damaged
// bytes are answers. Proved, and nothing is assumed.
#![tactic(auto)]

mod choice;
mod decode;
mod encode;
mod list;
mod name;
mod record;

pub use choice::{Side, epoch_of, list_of, next_side, pick};
pub use decode::decode_list;
pub use encode::{EncodeError, encode_list, is_storable};
pub use list::{TapeList, TapeMetadata};
pub use name::is_name;
pub use record::{Record, encode_record, read_record};
