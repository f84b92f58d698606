// `commit` and `drop_transaction`, from what is seen (`seen`) to what is seen then: of every tape it is what `lives` says, and the areas stay in order. There is no
// code here.
//
// `commit` of an append: `specs/CommitAppends.antt`, over `Turns`, `Flushes`, `Ripens`, `AppendFiles` and `AppendOrder`; of a truncate: `CommitCuts`, over `Ends`, `CutRows`
// and `CutLeaves`; that it is served: `Commitable`. `drop_transaction` of a reader or a truncate: `Closes` and `CloseStarts`; of an append: `Drops`, over `Ends`, `DropRows`
// and `DropLeaves`. `EndProper`: both keep the names.
#![tactic(auto)]
