// Replies and cards from before a table could have more than 64 columns. There is no code here: what was accepted, opened and made then (specs/), and that it still is (proofs/).
#![tactic(auto)]
