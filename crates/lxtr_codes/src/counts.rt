// The frequency of each label: how often it occurs in all keys together.
ghost use Rattle.std.specs.Prelude.{◌≡◌, [], ◌+◌, ◌^◌, ◌≤◌, ◌<◌, length, get_or, replicate};
ghost use Rattle.lxtr_spec.specs.KeyLists.{pairs_of};
ghost use Rattle.lxtr_spec.specs.CodeMaps.{labels_used};
ghost use Rattle.lxtr_build_laws.specs.CodeTables.{Rising, place_in};
ghost use Rattle.lxtr_keys.specs.Keys.{labels_in};
ghost use Rattle.lxtr_codes.specs.LabelCounting.{Countable, count_one, KeyCounted, Counted};

use crate::guesses::find_guessed;
use lxtr_keys::key::Key;
use lxtr_keys::list::KeyList;

// Adds one to the count of a label.
fn count_label(labels: &[u32], guesses: &[u32], counts: &mut [u32], label: u32)
    requires rising { Rising labels.now }
    requires label_in_bounds { place_in labels.now label < length counts.old }
    requires label_bound { get_or counts.old (place_in labels.now label) 0 + 1 < 2 ^ 32 }
    ensures { counts.new ≡ count_one labels.now label counts.old }
{
    let i = find_guessed(labels, guesses, label);
    counts[i] += 1;
}

// Adds each label of a key to the counts, as often as it occurs there.
fn count_key(key: &Key, labels: &[u32], guesses: &[u32], counts: &mut [u32])
    requires rising { Rising labels.now }
    requires countable { Countable (labels_in key.now) labels.now counts.old }
    ensures { KeyCounted (labels_in key.now) labels.now counts.old counts.new }
{
    let len = key.len();
    for j in 0..len {
        let label = key.label(j);
        count_label(labels, guesses, counts, label);
    }
}

// Counts the frequency of each label, starting from counts that are all zero.
pub fn count_keys(keys: &KeyList, labels: &[u32], guesses: &[u32], counts: &mut [u32])
    requires labels_value { labels.now ≡ labels_used (pairs_of keys.now.bytes.now) [] }
    requires labels_in_bounds { length labels.now ≤ length counts.old }
    requires counts_value { counts.old ≡ replicate (length counts.old) 0 }
    ensures counts_len_unchanged { length counts.new ≡ length counts.old }
    ensures counted { Counted (pairs_of keys.now.bytes.now) labels.now counts.new }
{
    for key in keys.keys() {
        count_key(&key, labels, guesses, counts);
    }
}
