// The reply to one line of the driver, without any reading or printing: the call that the line asks
// for is made on the two areas, and the reply's text is put at the front of a buffer.
//
// `specs/` says for every line what its reply is and what the areas then hold. Proved, and nothing is
// assumed.
#![tactic(auto)]

mod calls;
mod reads;
mod replying;

pub use replying::reply;
