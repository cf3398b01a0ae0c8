// Uniqueness of what the public functions are proved to do. No function.
#![tactic(auto)]
