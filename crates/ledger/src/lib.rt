// The ledger: the documents' rules read on lists instead of buffers. Definitions and theorems only; they stand in specs/ and proofs/.

#![tactic(auto)]
