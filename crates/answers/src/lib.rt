// A text's answer, and where a value of it lies, each as the one number that a C host gets: definitions and laws alone; crate dock has the code.
#![tactic(auto)]
