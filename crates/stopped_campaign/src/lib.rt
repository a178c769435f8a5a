// A campaign that is stopped and restarted from its journal: three theorems on the calls' own bytes, in proofs/Stopped.antt (no code).
#![tactic(auto)]
