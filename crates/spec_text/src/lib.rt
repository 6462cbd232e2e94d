// The definitions of texts. specs/ has bytes, numbers, lines and fields as definitions, and proofs/ what makes a field
// a number. No code.
#![tactic(auto)]
