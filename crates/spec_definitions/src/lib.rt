// Document 01 as executable definitions, specs only. Above each is the sentence that it stands for.
// spec_arithmetic has what comes before: coefficients, polynomials, the allowed q, the kinds and values of
// words.
// - Ticket, Walk, Answers: the refusals 1 to 7, the continued fraction, the outcome of a ticket.
// - Units, Listing, Lookup, Products: the answers of the other calls. Text, Program: what the program prints.
// - Marked: the marked table, by computation.
#![tactic(auto)]
