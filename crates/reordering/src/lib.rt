// What is proved of two tables that differ only in the order or repetition of clauses: the same verdict, and the same answers.
#![tactic(auto)]
