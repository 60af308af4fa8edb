// Labels: whether a number is one, and reading them from bytes, four to a label, big-endian, as in a query.
ghost use Rattle.std.specs.Prelude.{◌≡◌, ◌<◌, [], length, get_or};
ghost use Rattle.std.specs.Iterator.{YieldsFirst, item_count};
ghost use Rattle.lxtr_spec.specs.Labels.{is_scalar, labels_of};

use crate::numbers::be32_at;
use std::marker::Model;

// Whether a number is a Unicode scalar value.
#[tactic(auto, unfolding(lxtr_spec::specs::Labels::is_scalar))]
pub fn is_scalar(x: u32) -> bool
    ensures { result ≡ is_scalar x }
{
    (x <= 0x10_ffff) & !((0xd800 <= x) & (x <= 0xdfff))
}

// How many labels a query has.
#[tactic(auto, using(lxtr_laws::specs::QueryLabels::label_count_lem))]
pub fn label_count(query: &[u8]) -> usize
    ensures { result ≡ length (labels_of query.now) }
{
    query.len() / 4
}

// Label i of a query, counted from 0.
#[tactic(auto, using(lxtr_laws::specs::QueryLabels::label_count_lem, lxtr_laws::specs::QueryLabels::label_read))]
pub fn label_at(query: &[u8], i: usize) -> u32
    requires { i < length (labels_of query.now) }
    ensures { result ≡ get_or (labels_of query.now) i 0 }
{
    be32_at(query, 4 * i)
}

// The labels of a query, one after the other; in a contract they are the list of those that are left.
#[derive(Drop)]
pub struct Labels<'a> {
    bytes: &'a [u8],
}

impl<'a> Model for Labels<'a> {
    ghost use Rattle.std.specs.Prelude.{List, ℕ};
    ghost use Rattle.lxtr_spec.specs.Labels.{labels_of};

    ghost Value = { List ℕ };

    ghost view = { λ s. labels_of s.bytes.now };
}

impl<'a> Iterator for Labels<'a> {
    type Item = u32;

    ghost next_gives = { YieldsFirst (λ s. s) };

    ghost remaining = { item_count (λ s. s) };

    fn next(&mut self) -> Option<u32> {
        if self.bytes.len() < 4 {
            return None;
        }
        let label = be32_at(self.bytes, 0);
        self.bytes = &self.bytes[4..];
        Some(label)
    }
}

impl<'a> Labels<'a> {
    pub fn of(query: &'a [u8]) -> Self
        ensures { result ≡ labels_of query.now }
    {
        Labels { bytes: query }
    }

    // How many labels are left.
    pub fn left(&self) -> usize
        ensures { result ≡ length self.now }
    {
        label_count(self.bytes)
    }

    // Gives up the labels that are left.
    #[tactic(auto, using(lxtr_laws::specs::QueryLabels::labels_none))]
    pub fn clear(&mut self)
        ensures { self.new ≡ [] }
    {
        self.bytes = &self.bytes[..0];
    }
}
