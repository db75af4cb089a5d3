// Demands 2 and 3 as statements about the definitions, with their proofs, specs only. A statement is at the
// head of its file; docs/READING.md, section 2, has the table.
#![tactic(auto)]
