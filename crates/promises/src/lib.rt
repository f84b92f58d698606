// Demand 3: what the calls' arguments and answers say that everybody must see, and the theorems that every sequence of calls keeps it. Read `specs/Promise.antt`
// first, with `Calls.antt` and `Told.antt`; `proofs/Theorems.antt` has the one theorem. There is no code here.
//
// The proof: `Standing` is what holds of the areas and of what is told of every name, `Steps` that every call keeps it, `Runs` that every run does (both in `proofs/`); `Always` takes any
// further law of running sessions through all runs (`Rooms`, `Proper` and `FileSizes`, which are together `Furnished`; `Wholes`), `StaysOpen` and `Since` what some calls
// leave. Each statement has its file; `Premises` shows that there are runs.
#![tactic(auto)]
