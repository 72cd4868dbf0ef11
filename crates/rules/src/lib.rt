// What is right of one path: the paper's rules over the counts of its slots, for any number of slots a second, and a machine
// that keeps eleven small counts a row and is proved to answer as they say.
// This crate has no code. Read specs/ (Rules and Paper, then Machine, History and Claim); proofs/ holds what is proved of them.
#![tactic(auto)]
