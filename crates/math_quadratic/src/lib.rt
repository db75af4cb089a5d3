// Mathematics only: the quadratic extension of a field by a non-square ν: u + v·w with w² = ν. The theorem to
// open is `perfect_extension` in specs/Roots: where c^q = c, the extension is perfect and the q-th root of c
// is c^q.
// - Pairs, Extension: the pairs (u, v) are a ring, and a field, with inverses by the norm u² - ν v².
// - Powers: powers of products and of squares.
#![tactic(auto)]
