// The one text of a plan and a list of single entries, and what the writer of such texts gives. specs/ has both as
// definitions; proofs/ shows that the text is read to the plan and the entries it was written from, that texts of one
// meaning, and no others, are written alike, how long a text can be, and that its run is reported alike. No code.
#![tactic(auto)]
