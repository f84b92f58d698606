// One tape's cache and files, and the laws of what document 01's steps make of them: what a page finds there before and after. There is no code here.
#![tactic(auto)]
