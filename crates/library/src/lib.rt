// What is promised of the C library, as theorems over its definitions: statements in specs/, proofs in proofs/.

#![tactic(auto)]
