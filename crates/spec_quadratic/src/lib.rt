// The theorems on walks, products of ideals and square factors over the quadratic extension of the field of q
// elements, specs only. The file to open is specs/Walks.
#![tactic(auto)]
