// The bus and the register of open frames as definitions on lists: specs/ states 01's rules, proofs/ what follows from them.
// There is no code here.
#![tactic(auto)]
