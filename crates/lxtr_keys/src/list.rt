// A key list that no refusal refuses.
ghost use Rattle.std.specs.Prelude.{◌≡◌, IfOk};
ghost use Rattle.lxtr_spec.specs.Answers.{refusal_of};
ghost use Rattle.lxtr_spec.specs.KeyLists.{keys_at, key_count, list_refusal};
ghost use Rattle.lxtr_build_laws.specs.KeyListFacts.{KeysPassed};
ghost use Rattle.lxtr_build_laws.specs.OneProof.{KeysPassed-prop};

use crate::walk::Keys;
use crate::{KEYS_AT, key_count, list_refusal};
use lxtr_spec::refusals::Refusal;

// Its bytes.
#[derive(Clone, Copy)]
pub struct KeyList<'a> {
    pub bytes: &'a [u8],
    ghost passed: { KeysPassed bytes.now } by { KeysPassed-prop bytes.now },
}

impl<'a> KeyList<'a> {
    // The list of these bytes, or the first of refusals 15 to 19 that holds of them.
    pub fn read(bytes: &'a [u8]) -> Result<KeyList<'a>, Refusal>
        ensures refusal { refusal_of result ≡ list_refusal bytes.now }
        ensures value { IfOk result (λ k. k.bytes.now ≡ bytes.now) }
    {
        list_refusal(bytes)?;
        Ok(KeyList { bytes })
    }

    // The number of its keys.
    pub fn count(&self) -> usize
        ensures { result ≡ key_count self.now.bytes.now }
    {
        key_count(self.bytes)
    }

    // Its keys.
    pub fn keys(&self) -> Keys<'a>
        ensures keys_value { result.keys.now ≡ self.now.bytes.now }
        ensures at_value { result.at ≡ keys_at }
        ensures left_value { result.left ≡ key_count self.now.bytes.now }
    {
        Keys::from(self.bytes, KEYS_AT, self.count())
    }
}
