// How many slots lent work has.
ghost use Rattle.std.specs.Prelude.{◌≡◌};
ghost use Rattle.lxtr_spec.specs.Builds.{slots_in};

use lxtr_spec::MAX_SLOTS;

// The number of slots that work of this many words allows.
#[tactic(auto, unfolding(lxtr_spec::specs::Builds::slots_in))]
pub fn slots_in(words: usize) -> usize
    ensures { result ≡ slots_in words }
{
    (words / 2).min(MAX_SLOTS)
}
