// The four cases of a lookup: which one a slot has, and what each says.
ghost use Rattle.std.specs.Prelude.{◌≡◌, ◌<◌, IfSome};
ghost use Rattle.lxtr_spec.specs.Image.{slot_count};
ghost use Rattle.lxtr_spec.specs.Searches.{case_value, case_longer, case_at};

use lxtr_image::Image;
use lxtr_spec::Case;
use lxtr_walk::{longer_at, value_at};

// The case at the slot that a walk reached; nothing, if it reached none.
#[tactic(auto, unfolding(lxtr_spec::specs::Searches::case_at, lxtr_spec::specs::Searches::case_of))]
pub fn case_at(image: &Image, slot: Option<u32>) -> Case
    requires { IfSome slot (λ n. n < slot_count image.now) }
    ensures { result ≡ case_at image.now slot }
{
    let Some(n) = slot else {
        return Case::Neither;
    };
    let longer = longer_at(image, n);
    match value_at(image, n) {
        None if longer => Case::PrefixOnly,
        None => Case::Neither,
        Some(v) if longer => Case::ExactAndPrefix(v),
        Some(v) => Case::ExactOnly(v),
    }
}

// The value of a case, or none.
#[tactic(auto, unfolding(lxtr_spec::specs::Searches::case_value))]
pub fn value(case: Case) -> Option<u32>
    ensures { result ≡ case_value case }
{
    match case {
        Case::Neither | Case::PrefixOnly => None,
        Case::ExactOnly(v) | Case::ExactAndPrefix(v) => Some(v),
    }
}

// Whether longer keys exist in a case.
#[tactic(auto, unfolding(lxtr_spec::specs::Searches::case_longer))]
pub fn has_longer(case: Case) -> bool
    ensures { result ≡ case_longer case }
{
    matches!(case, Case::PrefixOnly | Case::ExactAndPrefix(_))
}
