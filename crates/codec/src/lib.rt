// No code: what reading and writing mean for each other (specs/Claims), proved of the definitions that the calls' contracts
// name.
#![tactic(auto)]
