#![tactic(auto)]

// Histories of calls and cuts: demand 3, the plain list that goes along, fits, the counts of sync, and the tester's worries. No function.
