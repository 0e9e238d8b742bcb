#![tactic(auto)]

// Demands 2 and 3, and requests 01, 02, 04 and 07, for an auditor: specs/ states them in their own words, proofs/ proves them. There is no code here.
