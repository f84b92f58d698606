// A restart: what a `store` finds after commits, as laws over the definitions that the contracts cite. `specs/Restarts.antt` has them. There is no code here.
#![tactic(auto)]
