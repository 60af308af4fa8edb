// Rule 10: a slot is wrong. An image in which none is wrong is `Slots`.
#![tactic(auto)]

ghost use Rattle.std.specs.Prelude.{◌≡◌, ◌<◌, false, MatchResult, Some};
ghost use Rattle.lxtr_spec.specs.Image.{slot_count};
ghost use Rattle.lxtr_spec.specs.Refusals.{is_used_from2, is_used, both_zero, used_slot_wrong, end_exists, flag_wrong, slot_wrong, slots_wrong};
ghost use Rattle.lxtr_laws.specs.Passed.{Whole, Passed};
ghost use Rattle.lxtr_laws.specs.FirstPlaces.{first_in};

use lxtr_image::Image;
use lxtr_image::nodes::parent_at;
use std::marker::Model;

// Which slots are used is asked of bytes that passed refusals 1 to 6; it needs none of what 7 and 8 say.
#[tactic(auto, unfolding(lxtr_spec::specs::Refusals::is_used_from2))]
pub fn is_used_from_2(image: &[u8], s: u32) -> bool
    requires whole { Whole image.now }
    requires s_bound { s < slot_count image.now }
    ensures { result ≡ is_used_from2 image.now s }
{
    (2 <= s) & (parent_at(image, s) != 0)
}

// Used are slot 1 and every slot from 2 up whose parent is not 0.
#[tactic(auto, unfolding(lxtr_spec::specs::Refusals::is_used))]
pub fn is_used(image: &[u8], s: u32) -> bool
    requires whole { Whole image.now }
    requires s_bound { s < slot_count image.now }
    ensures { result ≡ is_used image.now s }
{
    (s == 1) | is_used_from_2(image, s)
}

#[tactic(auto, unfolding(lxtr_spec::specs::Refusals::both_zero))]
fn both_zero(image: &Image, s: u32) -> bool
    requires { s < slot_count image.now }
    ensures { result ≡ both_zero image.now s }
{
    (image.base_word(s) == 0) & (image.check_word(s) == 0)
}

// Whether a used slot from 2 up is wrong: it has a parent that isn't below N, is unused or is a leaf, its code is above L, or
// IS_LEAF differs from "the code is 0".
fn used_slot_wrong(image: &Image, s: u32) -> bool
    requires { s < slot_count image.now }
    ensures { result ≡ used_slot_wrong image.now s }
{
    let p = image.parent(s);
    if image.slot_count() <= p {
        return true;
    }
    let code = image.code_to(p, s);
    !is_used(image.bytes(), p)
        | image.is_leaf(p)
        | (image.label_count() < code)
        | (image.is_leaf(s) != (code == 0))
}

// Whether slot s is "not a leaf, and the slot at its base exists and has it as parent".
#[tactic(auto, unfolding(lxtr_spec::specs::Refusals::end_exists))]
fn end_exists(image: &Image, s: u32) -> bool
    requires { s < slot_count image.now }
    ensures { result ≡ end_exists image.now s }
{
    !image.is_leaf(s) & image.has_parent(image.base(s), s)
}

#[tactic(auto, unfolding(lxtr_spec::specs::Refusals::flag_wrong))]
fn flag_wrong(image: &Image, s: u32) -> bool
    requires { s < slot_count image.now }
    ensures { result ≡ flag_wrong image.now s }
{
    image.has_leaf(s) != end_exists(image, s)
}

// The rule depends on the slot: slot 0, slot 1, an unused slot from 2 up, or a used one.
fn slot_wrong(image: &Image, s: u32) -> bool
    requires { s < slot_count image.now }
    ensures { result ≡ slot_wrong image.now s }
{
    if s == 0 {
        return !both_zero(image, s);
    }
    if s == 1 {
        return image.is_leaf(s) | (image.parent(s) != 0) | flag_wrong(image, s);
    }
    if !is_used_from_2(image.bytes(), s) {
        return !both_zero(image, s) | flag_wrong(image, s);
    }
    used_slot_wrong(image, s) | flag_wrong(image, s)
}

// The first wrong slot.
pub fn first_wrong_slot(image: &Image) -> Option<u32>
    ensures { result ≡ first_in (slot_count image.now) (slot_wrong image.now) }
{
    (0..image.slot_count()).find(|&s| slot_wrong(image, s))
}

// The bytes of an image in which no slot is wrong.
#[derive(Drop)]
pub struct Slots<'a> {
    bytes: &'a [u8],
}

impl<'a> Model for Slots<'a> {
    ghost use Rattle.std.specs.Prelude.{List, ℕ, ◌≡◌, false};
    ghost use Rattle.lxtr_spec.specs.Refusals.{slots_wrong};
    ghost use Rattle.lxtr_laws.specs.Passed.{Passed};

    ghost Value = { List ℕ };

    ghost view = { λ a. a.bytes.now };

    ghost invariant = { λ a. Passed a.bytes.now × (slots_wrong a.bytes.now ≡ false) };
}

impl<'a> Slots<'a> {
    // The slots, or the first that is wrong.
    pub fn check(image: &Image<'a>) -> Result<Self, u32>
        ensures { MatchResult result (λ r. (r ≡ image.now) × (slots_wrong image.now ≡ false)) (λ s. Some s ≡ first_in (slot_count image.now) (slot_wrong image.now)) }
    {
        match first_wrong_slot(image) {
            Some(s) => Err(s),
            None => Ok(Slots {
                bytes: image.bytes(),
            }),
        }
    }

    // The image, and what is known of its slots.
    pub fn image(&self) -> Image<'a>
        ensures value { result ≡ self.now }
        ensures passed { Passed self.now }
        ensures right { slots_wrong self.now ≡ false }
    {
        Image::new(self.bytes)
    }
}
