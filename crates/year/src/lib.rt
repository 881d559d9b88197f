// A delivery year: what is proved of every list of settling calls, and of each call. It has no code.

#![tactic(auto)]
