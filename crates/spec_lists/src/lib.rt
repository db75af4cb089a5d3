// Laws of words and of lists of numbers, specs only: a word's kind and value, equal lists, padded lists.
#![tactic(auto)]
