// The starred lines of the bench sheet, as one table with one proof over the definitions: no function.
#![tactic(auto)]
