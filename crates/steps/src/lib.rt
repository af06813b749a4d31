// Every call as a step over the state and the lent memory, and what the steps keep. Definitions and theorems only; they stand in
// specs/ and proofs/.

#![tactic(auto)]
