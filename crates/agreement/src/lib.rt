// Demand 3: every answer over the lent memory is the ledger's. Definitions and theorems only; they stand in specs/ and proofs/.

#![tactic(auto)]
