// The theorem that every number of the machine stays in its range, which the code's arrays and small integers rest on:
// stated in the crate spec_machine, specs/Ranges.antt, and proved here. No code.
#![tactic(auto)]
