// Document 01's sentences as statements about lists of any numbers, with their proofs, specs only: on words,
// with T1 (specs/Sentences, FirstRefusal, TicketRead), and on polynomials (Arithmetic, Operations). A
// statement is at the head of its file; docs/READING.md, section 2, has the table. Tests, Readings and
// Squares are proofs: a test is true exactly where its sentence applies.
#![tactic(auto)]
