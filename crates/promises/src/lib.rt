// The promises: demands 2 and 3 as theorems on the definitions that the contracts cite. No function.
#![tactic(auto)]
