// The two words of a slot: base, with IS_LEAF as its top bit, and check, with HAS_LEAF.
ghost use Rattle.std.specs.Prelude.{◌≡◌, ◌<◌};
ghost use Rattle.lxtr_laws.specs.Passed.{Whole};
ghost use Rattle.lxtr_spec.specs.Image.{slot_count, base_word, check_word, is_leaf, has_leaf, parent, has_parent, base, value_number, slot_from, code_to};

use crate::Image;
use crate::joining::{code_under, slot_under};
use crate::sections::{base_word_at, check_word_at, slot_count};

// IS_LEAF in the base word, HAS_LEAF in the check word.
pub const TOP_BIT: u32 = 0x8000_0000;

// What a slot has, of bytes that passed refusals 1 to 6. An `Image` has passed 7 and 8 too, which none of this needs.
pub fn is_leaf_at(image: &[u8], s: u32) -> bool
    requires whole { Whole image.now }
    requires s_bound { s < slot_count image.now }
    ensures { result ≡ is_leaf image.now s }
{
    TOP_BIT <= base_word_at(image, s)
}

pub fn has_leaf_at(image: &[u8], s: u32) -> bool
    requires whole { Whole image.now }
    requires s_bound { s < slot_count image.now }
    ensures { result ≡ has_leaf image.now s }
{
    TOP_BIT <= check_word_at(image, s)
}

#[tactic(auto, unfolding(lxtr_spec::specs::Image::parent))]
pub fn parent_at(image: &[u8], s: u32) -> u32
    requires whole { Whole image.now }
    requires s_bound { s < slot_count image.now }
    ensures { result ≡ parent image.now s }
{
    check_word_at(image, s) % TOP_BIT
}

// Whether slot t exists and has n as parent.
#[tactic(auto, unfolding(lxtr_spec::specs::Image::has_parent))]
pub fn has_parent_at(image: &[u8], t: u32, n: u32) -> bool
    requires { Whole image.now }
    ensures { result ≡ has_parent image.now t n }
{
    t < slot_count(image) && parent_at(image, t) == n
}

// The base of a slot that is not a leaf.
#[tactic(auto, unfolding(lxtr_spec::specs::Image::base))]
pub fn base_at(image: &[u8], s: u32) -> u32
    requires whole { Whole image.now }
    requires s_bound { s < slot_count image.now }
    ensures { result ≡ base image.now s }
{
    base_word_at(image, s) % TOP_BIT
}

// The value number of a leaf. It is computed as the base of any other slot is.
#[tactic(auto, unfolding(lxtr_spec::specs::Image::value_number, lxtr_spec::specs::Image::base))]
pub fn value_number_at(image: &[u8], s: u32) -> u32
    requires whole { Whole image.now }
    requires s_bound { s < slot_count image.now }
    ensures { result ≡ value_number image.now s }
{
    base_at(image, s)
}

// The slot that a code reaches from slot n.
#[tactic(auto, unfolding(lxtr_spec::specs::Image::slot_from))]
pub fn slot_from_at(image: &[u8], n: u32, code: u32) -> u32
    requires whole { Whole image.now }
    requires n_bound { n < slot_count image.now }
    ensures { result ≡ slot_from image.now n code }
{
    slot_under(base_at(image, n), code)
}

// The code by which slot n reaches a slot.
#[tactic(auto, unfolding(lxtr_spec::specs::Image::code_to))]
pub fn code_to_at(image: &[u8], n: u32, slot: u32) -> u32
    requires whole { Whole image.now }
    requires n_bound { n < slot_count image.now }
    ensures { result ≡ code_to image.now n slot }
{
    code_under(base_at(image, n), slot)
}

// The same of an `Image`.
impl<'a> Image<'a> {
    pub fn base_word(&self, s: u32) -> u32
        requires { s < slot_count self.now }
        ensures { result ≡ base_word self.now s }
    {
        base_word_at(self.bytes, s)
    }

    pub fn check_word(&self, s: u32) -> u32
        requires { s < slot_count self.now }
        ensures { result ≡ check_word self.now s }
    {
        check_word_at(self.bytes, s)
    }

    pub fn is_leaf(&self, s: u32) -> bool
        requires { s < slot_count self.now }
        ensures { result ≡ is_leaf self.now s }
    {
        is_leaf_at(self.bytes, s)
    }

    pub fn has_leaf(&self, s: u32) -> bool
        requires { s < slot_count self.now }
        ensures { result ≡ has_leaf self.now s }
    {
        has_leaf_at(self.bytes, s)
    }

    pub fn parent(&self, s: u32) -> u32
        requires { s < slot_count self.now }
        ensures { result ≡ parent self.now s }
    {
        parent_at(self.bytes, s)
    }

    pub fn has_parent(&self, t: u32, n: u32) -> bool
        ensures { result ≡ has_parent self.now t n }
    {
        has_parent_at(self.bytes, t, n)
    }

    pub fn base(&self, s: u32) -> u32
        requires { s < slot_count self.now }
        ensures { result ≡ base self.now s }
    {
        base_at(self.bytes, s)
    }

    pub fn value_number(&self, s: u32) -> u32
        requires { s < slot_count self.now }
        ensures { result ≡ value_number self.now s }
    {
        value_number_at(self.bytes, s)
    }

    pub fn slot_from(&self, n: u32, code: u32) -> u32
        requires { n < slot_count self.now }
        ensures { result ≡ slot_from self.now n code }
    {
        slot_from_at(self.bytes, n, code)
    }

    pub fn code_to(&self, n: u32, slot: u32) -> u32
        requires { n < slot_count self.now }
        ensures { result ≡ code_to self.now n slot }
    {
        code_to_at(self.bytes, n, slot)
    }
}
