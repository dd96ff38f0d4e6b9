// What a text's report comes to in bytes, and which numbers the entries for C never hand back: theorems, and no code.
#![tactic(auto)]
