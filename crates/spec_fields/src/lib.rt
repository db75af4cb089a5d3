// The field that a name stands for, specs only: its operations on the values of words have a model in a
// perfect field. The record to open is `Arithmetic` in specs/Named: what is proved above this crate is proved
// over it.
#![tactic(auto)]
