// The rules of a valid table, and the verdict by them: definitions and their laws.
#![tactic(auto)]
