// What one setting does to a record: definitions only, which param and the reader share.
#![tactic(auto)]
