// A refusal's number says which rule a value breaks. There is no code here: what that means, how the numbers were before 7 was split by cause (specs/), and what is proved of both (proofs/).
#![tactic(auto)]
