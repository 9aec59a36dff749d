// Where the things of a message stand. There is no code here: definitions (specs/) that contracts above cite, and what is proved of them (proofs/).
#![tactic(auto)]
