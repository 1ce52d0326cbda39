// The theory of the protocol: no code. Its definitions stand in specs/, their proofs in proofs/.
#![tactic(auto)]
