// The mirror as the distance of the conjugate ideal, request R-6 of document 02, specs only.
// - Conjugates: which index of the walk has the conjugate ideal, and at what distance, on the definitions' lists.
// - Mirrors: the demand as a statement on the words of a listing, with its proof.
#![tactic(auto)]
