// What the program prints, by computation, specs only.
// - Decimals, Lines, Listings, Lengths: numbers, one-line answers, listings, inputs of 276 to 281 bytes.
// - TooLong: "refused 13" for every listing of more than 8,192 words.
#![tactic(auto)]
