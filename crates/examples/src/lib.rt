// Document 01's nine checked examples, as one table of the definitions with a single theorem:
// `specs/Examples.antt`. `specs/Settled.antt` is a second table, of readings that the examples do
// not show. There is no code here.
#![tactic(auto)]
