// Turns in the work cells are the turns of the definitions: theorems alone.
#![tactic(auto)]
