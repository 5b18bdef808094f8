// Definitions and the theorem of demand 3; there is no code here.
#![tactic(auto)]
