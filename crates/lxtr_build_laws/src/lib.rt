// Facts about the builder's definitions that the builder's crates and its demand cite. There is no code: everything is in specs/.
#![tactic(auto)]
