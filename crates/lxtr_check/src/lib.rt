// Checks LXTR images: whether given bytes are an image, and of how many pairs. Each of rules 9 to 12 has a crate of its own. Any
// caller may use `check`; `accept`, `AcceptedImage` and `is_end` are for the crates that use this one.
#![tactic(auto)]

ghost use Rattle.std.specs.Prelude.{◌≡◌, ◌<◌, IfOk};
ghost use Rattle.lxtr_spec.specs.Image.{slot_count};
ghost use Rattle.lxtr_spec.specs.Refusals.{header_refusal, body_refusal, image_refusal, is_end, end_count, check_of};
ghost use Rattle.lxtr_spec.specs.Answers.{refusal_of, answer_or};
ghost use Rattle.lxtr_laws.specs.Passed.{Whole};
ghost use Rattle.lxtr_laws.specs.Facts.{Accepted};

use lxtr_check_labels::first_wrong_label;
use lxtr_check_lists::lists_wrong;
use lxtr_check_reach::first_unreachable;
use lxtr_check_slots::{Slots, is_used_from_2};
use lxtr_header::read;
use lxtr_image::Image;
use lxtr_image::nodes::is_leaf_at;
use lxtr_spec::refusals::Refusal;
use std::marker::Model;

// The first of refusals 9 to 12 that holds.
pub fn check_body(image: &Image) -> Result<(), Refusal>
    ensures { refusal_of result ≡ body_refusal image.now }
{
    if first_wrong_label(image).is_some() {
        return Err(Refusal::WrongLabels);
    }
    let Ok(slots) = Slots::check(image) else {
        return Err(Refusal::WrongSlots);
    };
    if lists_wrong(&slots) {
        return Err(Refusal::WrongLists);
    }
    if first_unreachable(&slots).is_some() {
        return Err(Refusal::Unreachable);
    }
    Ok(())
}

// The bytes of an image that no refusal refuses.
#[derive(Drop)]
pub struct AcceptedImage<'a> {
    bytes: &'a [u8],
}

impl<'a> Model for AcceptedImage<'a> {
    ghost use Rattle.std.specs.Prelude.{List, ℕ, ◌≡◌};
    ghost use Rattle.lxtr_spec.specs.Refusals.{image_refusal};

    ghost Value = { List ℕ };

    ghost view = { λ a. a.bytes.now };

    ghost invariant = { λ a. image_refusal a.bytes.now ≡ 0 };
}

impl<'a> AcceptedImage<'a> {
    // The image, or the first of refusals 9 to 12 that holds.
    pub fn check(image: &Image<'a>) -> Result<Self, Refusal>
        requires { header_refusal image.now ≡ 0 }
        ensures refusal { refusal_of result ≡ body_refusal image.now }
        ensures bytes { IfOk result (λ a. a ≡ image.now) }
    {
        check_body(image)?;
        Ok(AcceptedImage {
            bytes: image.bytes(),
        })
    }

    // The image, and what is known of it.
    pub fn image(&self) -> Image<'a>
        ensures value { result ≡ self.now }
        ensures accepted { Accepted self.now }
    {
        Image::new(self.bytes)
    }
}

// The image, or the first of refusals 1 to 12 that holds, for any bytes.
pub fn accept(image: &[u8]) -> Result<AcceptedImage<'_>, Refusal>
    ensures refusal { refusal_of result ≡ image_refusal image.now }
    ensures bytes { IfOk result (λ a. a ≡ image.now) }
{
    AcceptedImage::check(&read(image)?)
}

// Whether slot s is a key's end, of bytes that passed refusals 1 to 6.
pub fn is_end(image: &[u8], s: u32) -> bool
    requires whole { Whole image.now }
    requires s_bound { s < slot_count image.now }
    ensures { result ≡ is_end image.now s }
{
    is_used_from_2(image, s) & is_leaf_at(image, s)
}

// The number of ends. An image has one for each pair. Adds without a branch: which slots are ends is hard to predict.
fn end_count(image: &Image) -> u32
    ensures { result ≡ end_count image.now }
{
    let mut ends: u32 = 0;
    for s in 0..image.slot_count() {
        ends += is_end(image.bytes(), s) as u32;
    }
    ends
}

// The check: the number of pairs in the set of which the bytes are an image, or a refusal.
pub fn check(image: &[u8]) -> Result<u32, Refusal>
    ensures { record { refusal = refusal_of result; pairs = answer_or 0 result } ≡ check_of image.now }
{
    let accepted = accept(image)?;
    Ok(end_count(&accepted.image()))
}
