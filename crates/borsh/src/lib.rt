// Borsh, for the types that a metadata record is made of: u32, u64, fixed arrays of bytes, byte
// vectors and strings, and through them structs and maps sorted by key.
//
// `specs/Encoding.antt` has the rules of the Borsh specification, `specs/Taking.antt` what a reader
// finds. A `Reader` may stand anywhere: what does not fit is answered and never read. A `Writer`'s
// caller has made room. Proved, and nothing is assumed.
#![tactic(auto)]

mod reader;
mod writer;

pub use reader::Reader;
pub use writer::Writer;
