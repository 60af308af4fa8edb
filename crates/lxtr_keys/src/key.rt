// One key of a list.
ghost use Rattle.std.specs.Prelude.{◌≡◌, ◌<◌};
ghost use Rattle.lxtr_spec.specs.KeyLists.{key_length, key_label, next_key};
ghost use Rattle.lxtr_build_laws.specs.KeyListFacts.{WholeKey};

use crate::{key_label, key_length, next_key};

// It lies wholly within the list, and has no more labels than a key may have.
#[derive(Clone, Copy)]
pub struct Key<'a> {
    pub keys: &'a [u8],
    pub at: usize,
    ghost whole: { WholeKey keys.now at },
}

impl Key<'_> {
    // The number of its labels.
    pub fn len(&self) -> usize
        ensures { result ≡ key_length self.now.keys.now self.now.at }
    {
        key_length(self.keys, self.at)
    }

    // Its label j.
    pub fn label(&self, j: usize) -> u32
        requires { j < key_length self.now.keys.now self.now.at }
        ensures { result ≡ key_label self.now.keys.now self.now.at j }
    {
        key_label(self.keys, self.at, j)
    }

    // Where the next key starts.
    pub fn next(&self) -> usize
        ensures { result ≡ next_key self.now.keys.now self.now.at }
    {
        next_key(self.keys, self.at)
    }
}
