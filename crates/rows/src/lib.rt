// Rows of numbers that stand for a record, definitions and laws alone: no code makes rows, and the reader writes the record itself (crate param).
// They stay because docs/PROMISES.md and docs/PROOFS.md name the laws first-is, those of Cells and those of Fields.
#![tactic(auto)]
