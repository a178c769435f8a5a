// The guarantee of a whole campaign, over every list of calls from the start, and replies in any order: definitions and theorems only, no code.
#![tactic(auto)]
