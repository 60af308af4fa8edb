// The keys of a list, one after the other.
ghost use Rattle.std.specs.Prelude.{◌≡◌};
ghost use Rattle.std.specs.Iterator.{at_most};
ghost use Rattle.lxtr_build_laws.specs.KeyListFacts.{WholeKeys};
ghost use Rattle.lxtr_build_laws.specs.OneProof.{WholeKeys-prop};

use crate::key::Key;

// The keys that are left: `left` of them, the first of which is at `at`.
#[derive(Drop)]
pub struct Keys<'a> {
    pub keys: &'a [u8],
    pub at: usize,
    pub left: usize,
    ghost whole: { WholeKeys keys.now left at } by { WholeKeys-prop keys.now left at },
}

impl<'a> Keys<'a> {
    // The `count` keys from the one at `at` on.
    pub fn from(keys: &'a [u8], at: usize, count: usize) -> Keys<'a>
        requires { WholeKeys keys.now count at }
        ensures keys_value { result.keys.now ≡ keys.now }
        ensures at_value { result.at ≡ at }
        ensures left_value { result.left ≡ count }
    {
        Keys {
            keys,
            at,
            left: count,
        }
    }
}

impl<'a> Iterator for Keys<'a> {
    ghost use Rattle.lxtr_keys.specs.Walking.{NextKey};

    type Item = Key<'a>;

    ghost next_gives = { NextKey };

    ghost remaining = { λ s. at_most s.left };

    #[inline(always)]
    fn next(&mut self) -> Option<Key<'a>> {
        if self.left == 0 {
            return None;
        }
        let key = Key {
            keys: self.keys,
            at: self.at,
        };
        self.at = key.next();
        self.left -= 1;
        Some(key)
    }
}
