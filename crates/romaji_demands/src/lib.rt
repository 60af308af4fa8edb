// What romaji typing has to do of the image's set of pairs and the kana table, stated and proved in specs/. No code.
#![tactic(auto)]
