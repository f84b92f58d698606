// Which call can change which part of the lent areas, on every input: a law for each call and area, over the definitions that the contracts cite.
// `specs/Parts.antt` has the parts of `docs/LAYOUT.md` and what it means that they alone are touched. There is no code here.
#![tactic(auto)]
