// Facts about the definitions of `romaji_spec` that the proofs of code and of the demand cite. There is no code: everything is in
// specs/.
#![tactic(auto)]
