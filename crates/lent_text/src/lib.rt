// A text that a call writes into a lent buffer: accepted with its length, or refused with 10. Definitions and laws only, no code.
#![tactic(auto)]
