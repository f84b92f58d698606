// `open`, from what is seen (`seen`) to what is seen then: the tape of the wanted name is the one that `lives` opens, every other is as it was, and the areas stay in
// order. There is no code here.
//
// `specs/Opens.antt` has the laws of the call, over `OpensServed` (what a served open has found and done), `OpensRows`, `OpensPlaces` and `OpensFolders` (the rows, the
// places and the directories then), `OpensOrder` and `OpensSeen`. `OpenRooms` and `OpenProper`: it keeps the room and the names. `Reopens`: of areas in order a `store`, an
// append behind it and the opening of a listed tape are served.
#![tactic(auto)]
