// What is shown of a record while settings are applied to it, and what stays when a password's value is left out: definitions and laws only.
#![tactic(auto)]
