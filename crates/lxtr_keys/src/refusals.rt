// Refusals 15 and 17 to 19, key by key: a key that is cut short, is too long, has a label that is not a scalar value, or is not
// above the key before it.
ghost use Rattle.std.specs.Prelude.{◌≡◌, ◌≤◌, length, IfSome, IfOk};
ghost use Rattle.lxtr_spec.specs.Ranges.{any_below};
ghost use Rattle.lxtr_spec.specs.Answers.{refusal_of};
ghost use Rattle.lxtr_spec.specs.Labels.{comes_before};
ghost use Rattle.lxtr_spec.specs.KeyLists.{keys_at, key_length, no_scalar_at, not_above, key_refusal, keys_refusal};
ghost use Rattle.lxtr_keys.specs.Keys.{labels_in, later, place_before};

use crate::key::Key;
use crate::{KEYS_AT, key_length, next_key};
use lxtr_bytes::labels::is_scalar;
use lxtr_spec::MAX_LABELS;
use lxtr_spec::refusals::Refusal;

// Whether some label of a key is not a scalar value.
fn some_no_scalar(key: &Key) -> bool
    ensures { result ≡ any_below (key_length key.now.keys.now key.now.at) (no_scalar_at key.now.keys.now key.now.at) }
{
    for j in 0..key.len() {
        if !is_scalar(key.label(j)) {
            return true;
        }
    }
    false
}

// Whether a key comes before another: label by label as numbers, a proper prefix first.
fn comes_before(before: &Key, key: &Key) -> bool
    ensures { result ≡ comes_before (labels_in before.now) (labels_in key.now) }
{
    let m = before.len();
    let n = key.len();
    for same in 0..m {
        if n <= same {
            return false;
        }
        let x = before.label(same);
        let y = key.label(same);
        if x != y {
            return x < y;
        }
    }
    m < n
}

// Whether a key is not above the key before it. There is none before the first key.
fn not_above(before: Option<Key>, key: &Key) -> bool
    requires { IfSome before (λ k. k.keys.now ≡ key.now.keys.now) }
    ensures { result ≡ not_above key.now.keys.now (later before.entry) (place_before before.entry) key.now.at }
{
    match before {
        None => false,
        Some(before) => !comes_before(&before, key),
    }
}

// The key at `at`, or the first of refusals 15 and 17 to 19 that holds of it.
fn read_key<'a>(keys: &'a [u8], before: Option<Key<'a>>, at: usize) -> Result<Key<'a>, Refusal>
    requires { IfSome before (λ k. k.keys.now ≡ keys.now) }
    ensures refusal { refusal_of result ≡ key_refusal keys.now (later before.entry) (place_before before.entry) at }
    ensures value { IfOk result (λ k. (k.keys.now ≡ keys.now) × (k.at ≡ at)) }
{
    if keys.len() <= at {
        return Err(Refusal::ListMalformed);
    }
    if MAX_LABELS < key_length(keys, at) {
        return Err(Refusal::KeyTooLong);
    }
    if keys.len() < next_key(keys, at) {
        return Err(Refusal::ListMalformed);
    }
    let key = Key { keys, at };
    if some_no_scalar(&key) {
        return Err(Refusal::NotScalar);
    }
    if not_above(before, &key) {
        return Err(Refusal::KeysNotAscending);
    }
    Ok(key)
}

// The first of these that holds of the `count` keys, then 15 for bytes left over.
pub fn keys_refusal(keys: &[u8], count: usize) -> Result<(), Refusal>
    requires { keys_at ≤ length keys.now }
    ensures { refusal_of result ≡ keys_refusal keys.now count 0 0 keys_at }
{
    let mut before = None;
    let mut at: usize = KEYS_AT;
    for _i in 0..count {
        let key = read_key(keys, before, at)?;
        at = key.next();
        before = Some(key);
    }
    if at < keys.len() {
        return Err(Refusal::ListMalformed);
    }
    Ok(())
}
