// Rule 11: a children list is wrong. Offsets are tested first: only if none falls do all lists lie within the children array. An image
// in which none falls is `Lists`.
#![tactic(auto)]

ghost use Rattle.std.specs.Prelude.{◌≡◌, false, ◌+◌, ◌<◌, MatchResult, Some, option_map};
ghost use Rattle.lxtr_spec.specs.Ranges.{any_below};
ghost use Rattle.lxtr_spec.specs.Image.{slot_count, child_count, offset, list_width};
ghost use Rattle.lxtr_spec.specs.Refusals.{slots_wrong, offset_falls, used_count, entry_wrong, code_not_above, entry_wrong_in, entries_wrong, childless, root_wrong, lists_wrong};
ghost use Rattle.lxtr_laws.specs.Passed.{Passed};
ghost use Rattle.lxtr_laws.specs.FirstPlaces.{first_in};
ghost use Rattle.lxtr_check_lists.specs.Entries.{first_entry};

use lxtr_check_slots::{Slots, is_used, is_used_from_2};
use lxtr_image::Image;
use std::marker::Model;

#[tactic(auto, unfolding(lxtr_spec::specs::Refusals::offset_falls))]
fn offset_falls(image: &Image, p: u32) -> bool
    requires { p < slot_count image.now }
    ensures { result ≡ offset_falls image.now p }
{
    let _ = image.slot_count(); // bounds p + 1
    image.offset(p + 1) < image.offset(p)
}

// The first slot at which the offsets fall.
pub fn first_falling(image: &Image) -> Option<u32>
    ensures { result ≡ first_in (slot_count image.now) (offset_falls image.now) }
{
    (0..image.slot_count()).find(|&p| offset_falls(image, p))
}

// The number of used slots from 2 up. Adds without a branch: which slots are used is hard to predict.
pub fn used_count(image: &Image) -> u32
    ensures { result ≡ used_count image.now }
{
    let mut used: u32 = 0;
    for s in 0..image.slot_count() {
        used += is_used_from_2(image.bytes(), s) as u32;
    }
    used
}

// Whether entry j of the children, which is in the list of slot p, is outside 2 to N-1, unused or has another parent.
fn entry_wrong(image: &Image, p: u32, j: u32) -> bool
    requires { j < child_count image.now }
    ensures { result ≡ entry_wrong image.now p j }
{
    let t = image.child(j);
    if image.slot_count() <= t {
        return true;
    }
    (t < 2) | !is_used(image.bytes(), t) | (image.parent(t) != p)
}

// Whether the code of entry j is not above that of the entry before it in the list of slot p.
fn code_not_above(image: &Image, p: u32, j: u32) -> bool
    requires p_bound { p < slot_count image.now }
    requires j_bound { j < child_count image.now }
    ensures { result ≡ code_not_above image.now p j }
{
    if j <= image.offset(p) {
        return false;
    }
    image.code_to(p, image.child(j)) <= image.code_to(p, image.child(j - 1))
}

// Whether entry i of the list of slot p, counted from the start of the list, has either fault.
#[tactic(auto, unfolding(lxtr_spec::specs::Refusals::entry_wrong_in))]
fn entry_wrong_in(image: &Image, p: u32, i: u32) -> bool
    requires p_bound { p < slot_count image.now }
    requires i_bound { offset image.now p + i < child_count image.now }
    ensures { result ≡ entry_wrong_in image.now p i }
{
    let _ = image.child_count(); // bounds the sum
    let j = image.offset(p) + i;
    entry_wrong(image, p, j) | code_not_above(image, p, j)
}

// The bytes of an image in which no slot is wrong and no offset falls.
#[derive(Drop)]
pub struct Lists<'a> {
    bytes: &'a [u8],
}

impl<'a> Model for Lists<'a> {
    ghost use Rattle.std.specs.Prelude.{List, ℕ, ◌≡◌, false};
    ghost use Rattle.lxtr_spec.specs.Ranges.{any_below};
    ghost use Rattle.lxtr_spec.specs.Image.{slot_count};
    ghost use Rattle.lxtr_spec.specs.Refusals.{slots_wrong, offset_falls};
    ghost use Rattle.lxtr_laws.specs.Passed.{Passed};

    ghost Value = { List ℕ };

    ghost view = { λ a. a.bytes.now };

    ghost invariant = { λ a. Passed a.bytes.now × (slots_wrong a.bytes.now ≡ false) × (any_below (slot_count a.bytes.now) (offset_falls a.bytes.now) ≡ false) };
}

impl<'a> Lists<'a> {
    // The lists, or the first slot at which the offsets fall.
    pub fn check(slots: &Slots<'a>) -> Result<Self, u32>
        ensures { MatchResult result (λ r. (r ≡ slots.now) × (any_below (slot_count slots.now) (offset_falls slots.now) ≡ false)) (λ p. Some p ≡ first_in (slot_count slots.now) (offset_falls slots.now)) }
    {
        let image = slots.image();
        match first_falling(&image) {
            Some(p) => Err(p),
            None => Ok(Lists {
                bytes: image.bytes(),
            }),
        }
    }

    // The image, and what is known of its slots and offsets.
    pub fn image(&self) -> Image<'a>
        ensures value { result ≡ self.now }
        ensures passed { Passed self.now }
        ensures right { slots_wrong self.now ≡ false }
        ensures rising { any_below (slot_count self.now) (offset_falls self.now) ≡ false }
    {
        Image::new(self.bytes)
    }

    // The first wrong entry of the list of slot p, counted from the start of the list.
    pub fn first_wrong_in(&self, p: u32) -> Option<u32>
        requires { p < slot_count self.now }
        ensures { result ≡ first_in (list_width self.now p) (entry_wrong_in self.now p) }
    {
        let image = self.image();
        (0..image.list_width(p)).find(|&i| entry_wrong_in(&image, p, i))
    }

    // The first slot whose list has a wrong entry, and the first such entry, by its place in the children array.
    pub fn first_wrong_entry(&self) -> Option<(u32, u32)>
        ensures { result ≡ option_map (first_entry self.now) (first_in (slot_count self.now) (entries_wrong self.now)) }
    {
        let image = self.image();
        for p in 0..image.slot_count() {
            if let Some(i) = self.first_wrong_in(p) {
                return Some((p, image.offset(p) + i));
            }
        }
        None
    }
}

// A used slot from 2 up that is no leaf has no child.
#[tactic(auto, unfolding(lxtr_spec::specs::Refusals::childless))]
pub fn childless(image: &Image, s: u32) -> bool
    requires { s < slot_count image.now }
    ensures { result ≡ childless image.now s }
{
    is_used_from_2(image.bytes(), s) & !image.is_leaf(s) & (image.list_width(s) == 0)
}

// Looks at all slots instead of stopping at the first: which slots are leaves is hard to predict, so no branch depends on it.
fn some_childless(image: &Image) -> bool
    ensures { result ≡ any_below (slot_count image.now) (childless image.now) }
{
    let mut found = false;
    for s in 0..image.slot_count() {
        found |= childless(image, s);
    }
    found
}

// Whether slot 1 has no child and its base is not 0.
#[tactic(auto, unfolding(lxtr_spec::specs::Refusals::root_wrong))]
fn root_wrong(image: &Image) -> bool
    ensures { result ≡ root_wrong image.now }
{
    let root = image.root();
    (image.list_width(root) == 0) & (image.base(root) != 0)
}

pub fn lists_wrong(slots: &Slots) -> bool
    ensures { result ≡ lists_wrong slots.now }
{
    let Ok(lists) = Lists::check(slots) else {
        return true;
    };
    let image = lists.image();
    (image.child_count() != used_count(&image))
        | lists.first_wrong_entry().is_some()
        | some_childless(&image)
        | root_wrong(&image)
}
