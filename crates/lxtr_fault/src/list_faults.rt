// Where a children list is wrong: the place of a fault of rule 11.
ghost use Rattle.std.specs.Prelude.{◌≡◌, ◌+◌, ◌<◌};
ghost use Rattle.lxtr_spec.specs.Ranges.{any_below};
ghost use Rattle.lxtr_spec.specs.Image.{slot_count, child_count, offset, list_width};
ghost use Rattle.lxtr_spec.specs.Refusals.{childless};
ghost use Rattle.lxtr_spec.specs.FaultPlaces.{is_entry, unlisted, list_fault};
ghost use Rattle.lxtr_laws.specs.FirstPlaces.{first_in};

use lxtr_check_lists::{Lists, childless, used_count};
use lxtr_check_slots::{Slots, is_used_from_2};
use lxtr_image::Image;
use lxtr_spec::Fault;

// Whether entry i of the list of slot p, counted from the start of the list, is slot s.
#[tactic(auto, unfolding(lxtr_spec::specs::FaultPlaces::is_entry))]
fn is_entry(image: &Image, p: u32, s: u32, i: u32) -> bool
    requires p_bound { p < slot_count image.now }
    requires i_bound { offset image.now p + i < child_count image.now }
    ensures { result ≡ is_entry image.now p s i }
{
    let _ = image.child_count(); // bounds the sum
    image.child(image.offset(p) + i) == s
}

// Whether the list of slot p contains slot s.
fn has_entry(lists: &Lists, p: u32, s: u32) -> bool
    requires { p < slot_count lists.now }
    ensures { result ≡ any_below (list_width lists.now p) (is_entry lists.now p s) }
{
    let image = lists.image();
    (0..image.list_width(p)).any(|i| is_entry(&image, p, s, i))
}

// Whether slot s is a used slot from 2 up that the list of its parent does not contain.
fn unlisted(lists: &Lists, s: u32) -> bool
    requires { s < slot_count lists.now }
    ensures { result ≡ unlisted lists.now s }
{
    let image = lists.image();
    if !is_used_from_2(image.bytes(), s) {
        return false;
    }
    !has_entry(lists, image.parent(s), s)
}

// The first such slot.
fn first_unlisted(lists: &Lists) -> Option<u32>
    ensures { result ≡ first_in (slot_count lists.now) (unlisted lists.now) }
{
    (0..lists.image().slot_count()).find(|&s| unlisted(lists, s))
}

// The first childless slot.
fn first_childless(image: &Image) -> Option<u32>
    ensures { result ≡ first_in (slot_count image.now) (childless image.now) }
{
    (0..image.slot_count()).find(|&s| childless(image, s))
}

// Where the fault lies in an image that is refused by 11. The tests are in an order in which each relies on those before it.
pub fn list_fault(slots: &Slots) -> Fault
    ensures { result ≡ list_fault slots.now }
{
    let lists = match Lists::check(slots) {
        Ok(lists) => lists,
        Err(p) => return Fault::Offset(p),
    };
    if let Some((p, j)) = lists.first_wrong_entry() {
        return Fault::Entry(p, j);
    }
    let image = lists.image();
    if image.child_count() != used_count(&image) {
        // Some slot is unlisted then. `list_fault` of the definitions says N if none is.
        let s = first_unlisted(&lists).unwrap_or(image.slot_count());
        return Fault::Unlisted(s);
    }
    match first_childless(&image) {
        Some(s) => Fault::Childless(s),
        None => Fault::RootBase,
    }
}
