// The flights that are proved of the rules, as one table: plans, calls and what they answer, by computation (no code).
#![tactic(auto)]
