// What was promised of the player, as theorems over its definitions: statements in specs/, proofs in proofs/.

#![tactic(auto)]
