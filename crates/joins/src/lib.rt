// What the steps of the lent areas do to a tape's files and cache, in the words of `components`, `ring_buffer` and `held`. There is no code here.
#![tactic(auto)]
