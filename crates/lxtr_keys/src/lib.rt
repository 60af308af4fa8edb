// Key lists: reads the keys, and gives the first of refusals 15 to 19. A key list is a version byte 1, a count in four bytes,
// then per key a length byte and its labels, four bytes each, big-endian. A key is given by the position of its length byte.
#![tactic(auto)]

pub mod key; // one key
pub mod list; // a list that is not refused
pub mod walk; // the keys one after the other
mod refusals; // 15 and 17 to 19, key by key

ghost use Rattle.std.specs.Prelude.{◌≡◌, ◌+◌, ◌*◌, ◌≤◌, ◌<◌, length};
ghost use Rattle.lxtr_spec.specs.Answers.{refusal_of};
ghost use Rattle.lxtr_spec.specs.KeyLists.{keys_at, key_count, key_length, key_label, next_key, list_refusal};

use crate::refusals::keys_refusal;
use lxtr_bytes::heads::{HEAD_LENGTH, VERSION, count_at, version_at};
use lxtr_bytes::numbers::be32_at;
use lxtr_spec::MAX_KEYS;
use lxtr_spec::refusals::Refusal;

// Where the first key starts.
pub const KEYS_AT: usize = HEAD_LENGTH;

// The number of keys that the list announces.
#[tactic(auto, unfolding(lxtr_spec::specs::KeyLists::key_count))]
pub fn key_count(keys: &[u8]) -> usize
    requires { keys_at ≤ length keys.now }
    ensures { result ≡ key_count keys.now }
{
    count_at(keys, 0) as usize
}

// The number of labels of the key at `at`.
#[tactic(auto, unfolding(lxtr_spec::specs::KeyLists::key_length))]
pub fn key_length(keys: &[u8], at: usize) -> usize
    requires { at < length keys.now }
    ensures { result ≡ key_length keys.now at }
{
    keys[at] as usize
}

// Label j of the key at `at`.
#[tactic(auto, unfolding(lxtr_spec::specs::KeyLists::key_label))]
pub fn key_label(keys: &[u8], at: usize, j: usize) -> u32
    requires { at + 5 + 4 * j ≤ length keys.now }
    ensures { result ≡ key_label keys.now at j }
{
    be32_at(keys, at + 1 + 4 * j)
}

// Where the key after the one at `at` starts.
#[tactic(auto, unfolding(lxtr_spec::specs::KeyLists::next_key, lxtr_spec::specs::KeyLists::key_length))]
pub fn next_key(keys: &[u8], at: usize) -> usize
    requires { at < length keys.now }
    ensures { result ≡ next_key keys.now at }
{
    at + 1 + 4 * key_length(keys, at)
}

// The first of refusals 15 to 19 that holds of a key list.
pub fn list_refusal(keys: &[u8]) -> Result<(), Refusal>
    ensures { refusal_of result ≡ list_refusal keys.now }
{
    if keys.len() < KEYS_AT {
        return Err(Refusal::ListMalformed);
    }
    if version_at(keys, 0) != VERSION {
        return Err(Refusal::ListMalformed);
    }
    let count = key_count(keys);
    if MAX_KEYS < count {
        return Err(Refusal::TooManyKeys);
    }
    keys_refusal(keys, count)
}
