// Rule 9: a listed label is no scalar value or is listed twice. A hash table with chaining: labels with the same remainder modulo
// CHAINS form a chain, so that a label is compared only with the few earlier labels of its chain.
#![tactic(auto)]

ghost use Rattle.std.specs.Prelude.{◌≡◌, ◌+◌, ◌<◌};
ghost use Rattle.lxtr_spec.specs.Ranges.{any_below};
ghost use Rattle.lxtr_spec.specs.Image.{label_count, label_at};
ghost use Rattle.lxtr_spec.specs.Refusals.{same_label, label_wrong};
ghost use Rattle.lxtr_laws.specs.FirstPlaces.{first_in};
ghost use Rattle.lxtr_check_labels.specs.Chains.{chain_count, chain_of};

use lxtr_bytes::labels::is_scalar;
use lxtr_image::Image;
use lxtr_spec::MAX_LISTED;
use std::marker::Model;

// The number of chains: 4,096, a power of two, so that the remainder needs no division. Scalar values are below 0x110000, so a
// chain of distinct ones has at most 272 labels.
const CHAINS: usize = MAX_LISTED + 1;

// The chain of a label.
fn chain_of(label: u32) -> usize
    ensures value { result ≡ chain_of label }
    ensures upper_bound { result < chain_count }
{
    label as usize % CHAINS
}

// The chains of the labels at the first `count` places of the code map; in a contract, the image and `count`. The tables hold places
// plus 1, and 0 for none: `last` has the last place of each chain, `before` the place that comes before each place in its chain.
// Places are below MAX_LISTED, so 16 bits are enough. (There is no heap: both tables take 16 KB of the stack, and twice that with an
// Option in each place.)
#[derive(Drop)]
struct Chains<'i, 'a> {
    image: &'i Image<'a>,
    count: u16,
    last: [u16; CHAINS],
    before: [u16; MAX_LISTED],
}

impl<'i, 'a> Model for Chains<'i, 'a> {
    ghost use Rattle.std.specs.Prelude.{List, ℕ};
    ghost use Rattle.lxtr_check_labels.specs.Chains.{Chained};

    ghost Value = { List ℕ × ℕ };

    ghost view = { λ a. (a.image.now, a.count) };

    ghost invariant = { λ a. Chained a.image.now a.count a.last a.before };
}

impl<'i, 'a> Chains<'i, 'a> {
    fn new(image: &'i Image<'a>) -> Self
        ensures { result ≡ (image.now, 0) }
    {
        Chains {
            image,
            count: 0,
            last: [0; CHAINS],
            before: [0; MAX_LISTED],
        }
    }

    // Whether the label of the next place is in its chain already. The loop follows the links of the chain, so it has no range.
    fn has(&self, label: u32) -> bool
        requires next { self.now.1 < label_count self.now.0 }
        requires read { label ≡ label_at self.now.0 self.now.1 }
        ensures { result ≡ any_below self.now.1 (same_label self.now.0 self.now.1) }
    {
        let _ = self.image.label_count(); // bounds the places
        let mut entry = self.last[chain_of(label)];
        while 0 < entry {
            let place = entry - 1;
            if self.image.label(place as u32) == label {
                return true;
            }
            entry = self.before[place as usize];
        }
        false
    }

    // Whether the label of the next place is wrong. Only scalar values are put into chains, which keeps the chains short.
    fn is_wrong(&self, label: u32) -> bool
        requires next { self.now.1 < label_count self.now.0 }
        requires read { label ≡ label_at self.now.0 self.now.1 }
        ensures { result ≡ label_wrong self.now.0 self.now.1 }
    {
        !is_scalar(label) || self.has(label)
    }

    // Appends the label of the next place to its chain.
    fn push(&mut self, label: u32)
        requires next { self.old.1 < label_count self.old.0 }
        requires read { label ≡ label_at self.old.0 self.old.1 }
        ensures { self.new ≡ (self.old.0, self.old.1 + 1) }
    {
        let _ = self.image.label_count(); // bounds the place
        let chain = chain_of(label);
        self.before[self.count as usize] = self.last[chain];
        self.count += 1;
        self.last[chain] = self.count;
    }
}

// The first place with a wrong label.
pub fn first_wrong_label(image: &Image) -> Option<u32>
    ensures { result ≡ first_in (label_count image.now) (label_wrong image.now) }
{
    let mut chains = Chains::new(image);
    for i in 0..image.label_count() {
        let label = image.label(i);
        if chains.is_wrong(label) {
            return Some(i);
        }
        chains.push(label);
    }
    None
}
