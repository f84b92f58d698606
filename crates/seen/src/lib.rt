// What the two lent areas show of each tape, as `lives` tells its life, and that every call of the library does to that what `lives` says. There is no code here.
//
// `specs/Seen.antt` and `Orderly.antt` have the definitions, `Starts`, `Rooms` and `Proper` what else our own calls keep. Then by call: begins in `Begins` and `Waits`;
// `shift_start`, `truncate_tape`, `drop_entries`, `pop_entry` in `Stages` and `Cuts`; `append_entries` in `Puts`; reads in `Reads`; `store` in `Restarts`, `format` in
// `Formats`, every call without a session in `Unbegun`. That they keep what else is kept: `StageStarts`, `Rooms` and `PutRooms`, `ProperLaws` and `ProperStarts`. `open` is
// in the crate `opened`, `commit` and `drop_transaction` are in `ended`. The other files have what these laws share: rows, places, handles, lists.
#![tactic(auto)]
