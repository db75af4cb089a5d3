// Demand 1 for pairs, listings and lent lists as statements about the definitions, with their proofs, specs
// only: what is refused, and what is kept. A statement is at the head of its file; docs/READING.md, section
// 2, has the table. Records carries the statements on listings.
#![tactic(auto)]
