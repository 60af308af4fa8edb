// Demands 2 and 3, the places of faults, and document 01's examples P1 to P11, stated and proved of the definitions of
// `lxtr_spec`. There is no code: everything is in specs/.
#![tactic(auto)]
