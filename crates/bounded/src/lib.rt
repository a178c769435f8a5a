// Tests, searches, counts and sums over the numbers below a bound, with their laws: definitions and theorems only, no code.
#![tactic(auto)]
