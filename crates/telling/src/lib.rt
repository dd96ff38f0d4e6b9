// What the report tells, and how long it can be: theorems, and no code.
#![tactic(auto)]
