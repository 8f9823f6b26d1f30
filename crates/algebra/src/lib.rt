// The mathematics of marks: definitions in specs/, their laws in proofs/. It holds no code.
#![tactic(auto)]
