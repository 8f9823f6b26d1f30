// The mathematics of cosets and their leaders: definitions in specs/, their laws in proofs/. It holds no code.
#![tactic(auto)]
