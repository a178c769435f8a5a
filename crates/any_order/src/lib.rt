// Desks in any order: replies to different bookings, with no order taken between them. One theorem on the calls' own bytes, in proofs/AnyOrder.antt (no code).
#![tactic(auto)]
