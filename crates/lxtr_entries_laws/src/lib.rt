// Facts about the definitions of `lxtr_entries_spec` that proofs cite, stated and proved in specs/. No code.
#![tactic(auto)]
