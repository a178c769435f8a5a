// The bill of a campaign: that what it counts is what the campaign's calls were answered, a theorem on the calls' own bytes, in proofs/Bill.antt
// (no code).
#![tactic(auto)]
