// More examples on the definitions of `lxtr_spec`, and what the demands rule out. There is no code: everything is in specs/.
#![tactic(auto)]
