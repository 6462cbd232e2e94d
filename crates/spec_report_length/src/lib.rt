// The theorem that no report is longer than 75,101 bytes, which a buffer that fits every report rests on: the bound is
// stated in specs/Longest.antt, and proved in proofs/. No code.
#![tactic(auto)]
