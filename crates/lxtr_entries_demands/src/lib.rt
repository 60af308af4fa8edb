// What the check of an entry table and the lookup of entries have to do, of the image's set of pairs and the lists of entries, stated
// and proved in specs/. No code.
#![tactic(auto)]
