// A value reads as exactly the bytes that are listed for it. There is no code here: what that means (specs/), and that it is so (proofs/).
#![tactic(auto)]
