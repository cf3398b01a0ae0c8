#![tactic(auto)]

// The answers: the table of numbers, refusals, and each call against a plain list of names with contents. No function.
