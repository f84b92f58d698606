// One tape of the store through its life, as document 01 tells it: absent, created, committed, closed by the session's end, opened again; what is told of it by the
// calls alone; and the proof that every call keeps the two together. There is no code here.
#![tactic(auto)]
