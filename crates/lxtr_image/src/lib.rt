// Reads an LXTR image: nodes, lists and code map, and the joining rule. An `Image` is bytes that passed refusals 1 to 8, which
// `lxtr_header` tests; in a contract it is these bytes. The functions of `sections`, `nodes` and `lists` read
// bytes that passed 1 to 6, or fewer; the methods call them.
#![tactic(auto)]

pub mod sections; // the header's numbers, and where each part starts, of bytes of which less is known
pub mod joining; // slot, base and code
pub mod joined_words; // the same for 64 bases at a time, over a map with one bit for each slot
pub mod nodes; // the two words of a slot
pub mod lists; // offsets and children
mod code_map; // the listed labels, and the code of a label

ghost use Rattle.std.specs.Prelude.{◌≡◌, ◌+◌, ◌≤◌, ◌<◌};
ghost use Rattle.lxtr_spec.specs.Labels.{min_slots, max_slots};
ghost use Rattle.lxtr_spec.specs.Image.{slot_count, child_count};
ghost use Rattle.lxtr_laws.specs.Passed.{Passed};

use std::marker::Model;

// Bytes that passed refusals 1 to 8.
#[derive(Drop)]
pub struct Image<'a> {
    bytes: &'a [u8],
}

impl<'a> Model for Image<'a> {
    ghost use Rattle.std.specs.Prelude.{List, ℕ};
    ghost use Rattle.lxtr_laws.specs.Passed.{Passed};

    ghost Value = { List ℕ };

    ghost view = { λ a. a.bytes.now };

    ghost invariant = { λ a. Passed a.bytes.now };
}

impl<'a> Image<'a> {
    pub fn new(bytes: &'a [u8]) -> Self
        requires { Passed bytes.now }
        ensures { result ≡ bytes.now }
    {
        Image { bytes }
    }

    // The bytes, and what is known of them.
    pub fn bytes(&self) -> &'a [u8]
        ensures value { result.now ≡ self.now }
        ensures passed { Passed self.now }
    {
        self.bytes
    }

    // Slot 1, from which each walk starts.
    pub fn root(&self) -> u32
        ensures value { result ≡ 1 }
        ensures below { result < slot_count self.now }
    {
        let _ = &self.bytes; // there are at least two slots
        1
    }

    // N: the number of slots.
    pub fn slot_count(&self) -> u32
        ensures value { result ≡ slot_count self.now }
        ensures from { min_slots ≤ result }
        ensures to { result ≤ max_slots }
    {
        sections::slot_count(self.bytes)
    }

    // E: the number of children.
    pub fn child_count(&self) -> u32
        ensures value { result ≡ child_count self.now }
        ensures to { result + 2 ≤ slot_count self.now }
    {
        sections::child_count(self.bytes)
    }
}
