// Whatever satisfies a statement of spec_sentences, spec_refusals, spec_demands or spec_answers is what the
// definitions give, specs only.
// docs/READING.md, section 4, has the table.
#![tactic(auto)]
