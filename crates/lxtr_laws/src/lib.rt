// Facts about the definitions of `lxtr_spec` that proofs cite. There is no code: everything is in specs/.
#![tactic(auto)]
