// The story of a whole campaign: what the listing says is true of what the desks replied. One theorem on the calls' own bytes, in proofs/Told.antt (no code).
#![tactic(auto)]
