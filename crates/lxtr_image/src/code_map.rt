// The code map: the labels that it lists, and the code of a label.
ghost use Rattle.std.specs.Prelude.{◌≡◌, ◌+◌, ◌*◌, ◌-◌, ◌<◌, ◌≤◌, eqb};
ghost use Rattle.lxtr_spec.specs.Labels.{max_listed};
ghost use Rattle.lxtr_spec.specs.Image.{map_at, label_count, label_at, code_from, code_of};
ghost use Rattle.lxtr_image.specs.Blocks.{block_size, weight, block_sum};

use crate::Image;
use crate::sections::map_length;
use lxtr_bytes::heads::HEAD_LENGTH;
use lxtr_bytes::numbers::{be32_at, be32_equals};

// How many places of the map are compared at a time.
const BLOCK_SIZE: u32 = 64;

// What a match adds to the sum of a block, besides its place. It is larger than all places of a block together.
const MATCH: u32 = 0x1_0000;

// What place k of a block adds to its sum: MATCH plus the place, counted from 1, if it has the label; otherwise nothing.
#[tactic(auto, unfolding(crate::specs::Blocks::weight))]
fn weight(equal: bool, k: u32) -> u32
    requires { k < block_size }
    ensures { result ≡ weight equal k }
{
    if equal { MATCH + 1 + k } else { 0 }
}

impl<'a> Image<'a> {
    // L: how many labels are listed, computed from the length of the map.
    pub fn label_count(&self) -> u32
        ensures value { result ≡ label_count self.now }
        ensures to { result ≤ max_listed }
    {
        (map_length(self.bytes) - HEAD_LENGTH as u32) / 4
    }

    // Where the label at place i is. The map is the last part of the image, so the image's length tells where it starts.
    fn label_position(&self, i: u32) -> usize
        requires { i < label_count self.now }
        ensures { result ≡ map_at self.now + 5 + 4 * i }
    {
        let map = self.bytes.len() - map_length(self.bytes) as usize;
        map + HEAD_LENGTH + 4 * i as usize
    }

    // The label at place i, whose code is i + 1.
    pub fn label(&self, i: u32) -> u32
        requires { i < label_count self.now }
        ensures { result ≡ label_at self.now i }
    {
        be32_at(self.bytes, self.label_position(i))
    }

    // Whether place i has the given label. A search swaps the bytes of the given label once, instead of those of each label in the map.
    fn has_label(&self, i: u32, label: u32) -> bool
        requires { i < label_count self.now }
        ensures { result ≡ eqb (label_at self.now i) label }
    {
        be32_equals(self.bytes, self.label_position(i), label)
    }

    // The sum over the block that starts at place i. It compiles without a branch, so that several places are compared at a time.
    fn block_sum(&self, label: u32, i: u32) -> u32
        requires { i + block_size ≤ label_count self.now }
        ensures { result ≡ block_sum self.now label i block_size }
    {
        let _ = &self.bytes; // bounds the places
        let mut sum: u32 = 0;
        for k in 0..BLOCK_SIZE {
            sum += weight(self.has_label(i + k, label), k);
        }
        sum
    }

    // The code of a label, searched place by place, starting at place `from`.
    fn code_from(&self, label: u32, from: u32) -> Option<u32>
        requires { from ≤ label_count self.now }
        ensures { result ≡ code_from self.now label (label_count self.now - from) from }
    {
        for i in from..self.label_count() {
            if self.has_label(i, label) {
                return Some(i + 1);
            }
        }
        None
    }

    // The code of a label: its first place, counted from 1. Whole blocks are searched by their sums. A block that has the label more
    // than once, and the places after the last whole block, are searched place by place.
    pub fn code_of(&self, label: u32) -> Option<u32>
        ensures { result ≡ code_of self.now label }
    {
        let blocks = self.label_count() / BLOCK_SIZE;
        for block in 0..blocks {
            let first = BLOCK_SIZE * block;
            let sum = self.block_sum(label, first);
            if 2 * MATCH <= sum {
                return self.code_from(label, first);
            }
            if sum != 0 {
                return Some(first + sum % MATCH);
            }
        }
        self.code_from(label, BLOCK_SIZE * blocks)
    }
}
