// The highest value number of an image's set. Whatever lists something for each value number from 0 up is long enough for every
// value of the image if it is long enough for this one. Any caller may use `highest`.
#![tactic(auto)]

ghost use Rattle.std.specs.Prelude.{◌≡◌, cond, ◌+◌, ◌<◌, None};
ghost use Rattle.lxtr_spec.specs.Image.{slot_count, value_number};
ghost use Rattle.lxtr_spec.specs.Refusals.{is_end};
ghost use Rattle.lxtr_spec.specs.HighestValues.{highest_below, highest_of};
ghost use Rattle.lxtr_spec.specs.Answers.{refusal_of, answer_or};

use lxtr_check::{accept, is_end};
use lxtr_image::Image;
use lxtr_spec::refusals::Refusal;

// One more than the value of slot s if it is an end, otherwise 0.
fn end_bound(image: &Image, s: u32) -> u32
    requires { s < slot_count image.now }
    ensures { result ≡ cond (is_end image.now s) (value_number image.now s + 1) 0 }
{
    if is_end(image.bytes(), s) {
        image.value_number(s) + 1
    } else {
        0
    }
}

// The highest value of the ends, or none. The loop needs no case for none: `bound` is one more than the highest value so far, or 0.
fn highest_value(image: &Image) -> Option<u32>
    ensures { result ≡ highest_below image.now (slot_count image.now) }
{
    let mut bound: u32 = 0;
    for s in 0..image.slot_count() {
        bound = bound.max(end_bound(image, s));
    }
    bound.checked_sub(1)
}

// The highest value of an accepted image, or none if its set is empty.
pub fn highest(image: &[u8]) -> Result<Option<u32>, Refusal>
    ensures { record { refusal = refusal_of result; value = answer_or None result } ≡ highest_of image.now }
{
    let accepted = accept(image)?;
    Ok(highest_value(&accepted.image()))
}
