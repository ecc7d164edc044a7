// What the bus's calls do to the state and the lent memory, as functions on lists: specs/ has the calls, proofs/ that they are those
// of the plain bus. There is no code here.
#![tactic(auto)]
