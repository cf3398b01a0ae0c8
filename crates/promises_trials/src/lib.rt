#![tactic(auto)]

// Stores and builds that are wrong on purpose, and the promise that is false of each. No function.
