// The calls that end a transaction: `commit` of an append or a truncate, and `drop_transaction` of any.
//
// `specs/` says for each call, on every input, what it answers and what the areas then hold. Proved,
// and nothing is assumed.
#![tactic(auto)]

mod checking;
mod committing;
mod dropping;
mod listing;
mod oldest;
mod steps;

pub use committing::commit;
pub use dropping::drop_transaction;
