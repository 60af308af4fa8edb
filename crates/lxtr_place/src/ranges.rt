// The parts of a group: the group of a child, and the value of the key that ends at the slot.
ghost use Rattle.std.specs.Prelude.{◌≡◌, ◌+◌, ◌≤◌, ◌<◌, length, drop};
ghost use Rattle.lxtr_spec.specs.Labels.{length_count, value_limit};
ghost use Rattle.lxtr_spec.specs.Placing;
ghost use Rattle.lxtr_spec.specs.Placing.{end_value};
ghost use Rattle.lxtr_keys.specs.Keys.{labels_in};
ghost use Rattle.lxtr_place.specs.GroupRanges.{place_of, group_of, Grouped, goes_by, is_under, run_of};
ghost use Rattle.lxtr_place.specs.GroupLoops.{Skipped};
ghost use Rattle.lxtr_place.specs.Plans.{pairs_in, label_in};

use crate::groups::{Group, KeyGroup};
use lxtr_keys::key::Key;
use lxtr_keys::key_length;
use lxtr_keys::walk::Keys;

// Whether a key continues with label x after `depth` labels.
pub fn goes_by(key: &Key, depth: usize, x: u32) -> bool
    ensures { result ≡ goes_by x (drop depth (labels_in key.now)) }
{
    if key.len() <= depth {
        return false;
    }
    key.label(depth) == x
}

// Whether a key ends after `depth` labels, or continues with a label below x.
fn is_under(key: &Key, depth: usize, x: u32) -> bool
    ensures { result ≡ is_under x (drop depth (labels_in key.now)) }
{
    if key.len() <= depth {
        return true;
    }
    key.label(depth) < x
}

// How many keys at the front of a group continue with label x.
fn run_of(keys: &[u8], g: Group, x: u32) -> usize
    requires { Grouped keys.now g }
    ensures { (result ≤ g.count) × (result ≡ run_of x (group_of keys.now g)) }
{
    for (i, key) in Keys::from(keys, g.at, g.count).enumerate() {
        if !goes_by(&key, g.depth, x) {
            return i;
        }
    }
    g.count
}

impl<'a> KeyGroup<'a> {
    // Where key i starts. For i = count this is where the last key ends.
    fn start_of(&self, i: usize) -> usize
        requires { i ≤ self.now.span.count }
        ensures { result ≡ place_of self.now.plan.now.tables.now.keys.bytes.now i self.now.span.at }
    {
        self.plan.starts[self.span.first + i] as usize
    }

    // How many keys at the front are under x.
    fn skip_to(&self, x: u32) -> usize
        ensures { Skipped self.now.plan.now.tables.now.keys.bytes.now self.now.span x result }
    {
        let list = self.plan.tables.keys;
        let mut low: usize = 0;
        let mut high = self.span.count;
        // A binary search of its own: `partition_point` asks of its test that it may be called at any position.
        while low < high {
            let mid = low + (high - low) / 2;
            let key = Key {
                keys: list.bytes,
                at: self.start_of(mid),
            };
            if is_under(&key, self.span.depth, x) {
                low = mid + 1;
            } else {
                high = mid;
            }
        }
        low
    }

    // The group of the child by label x: the keys that continue with x, one label deeper.
    pub fn below(&self, x: u32) -> KeyGroup<'a>
        requires { self.now.span.depth < length_count }
        ensures plan_value { result.plan.now ≡ self.now.plan.now }
        ensures depth_value { result.span.depth ≡ self.now.span.depth + 1 }
        ensures pairs_value { pairs_in result ≡ Placing.below x (pairs_in self.now) }
    {
        let list = self.plan.tables.keys;
        let skipped = self.skip_to(x);
        let from = Group {
            at: self.start_of(skipped),
            first: self.span.first + skipped,
            count: self.span.count - skipped,
            depth: self.span.depth,
        };
        let count = run_of(list.bytes, from, x);
        KeyGroup {
            plan: self.plan,
            span: Group {
                at: from.at,
                first: from.first,
                count,
                depth: from.depth + 1,
            },
        }
    }

    // The group of the child by a code from 1 up. The tables give the label of the code.
    pub fn child(&self, code: u32) -> KeyGroup<'a>
        requires depth_in_bounds { self.now.span.depth < length_count }
        requires code_in_bounds { (1 ≤ code) × (code ≤ length self.now.plan.now.tables.now.labels.now) }
        ensures plan_value { result.plan.now ≡ self.now.plan.now }
        ensures depth_value { result.span.depth ≡ self.now.span.depth + 1 }
        ensures pairs_value { pairs_in result ≡ Placing.below (label_in self.now.plan.now code) (pairs_in self.now) }
    {
        self.below(self.plan.tables.labels[self.plan.tables.order[code as usize - 1] as usize])
    }

    // The value number of the key that ends at the slot, or 0 if there is none. Only the first key of a group can end there.
    pub fn end_value(&self) -> u32
        ensures value { result ≡ end_value (pairs_in self.now) }
        ensures small { result < value_limit }
    {
        if self.span.count == 0 {
            return 0;
        }
        let list = self.plan.tables.keys;
        if self.span.depth < key_length(list.bytes, self.span.at) {
            return 0;
        }
        self.span.first as u32
    }
}
