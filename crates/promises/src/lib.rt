// What was promised of the engine, as theorems over its definitions: statements in specs/, proofs in proofs/.

#![tactic(auto)]
