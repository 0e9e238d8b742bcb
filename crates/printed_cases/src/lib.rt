#![tactic(auto)]

// What the program prints for records of B, by computation: specs/ states it, proofs/ proves it. There is no code here.
