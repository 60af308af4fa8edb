// The walk over an image: one step, the walk of a query, and what is found at its end; also the refusals that come before it. The
// functions are for the crates that use this one.
#![tactic(auto)]

ghost use Rattle.std.specs.Prelude.{◌≡◌, ◌<◌, IfOk, IfSome};
ghost use Rattle.lxtr_spec.specs.Answers.{refusal_of};
ghost use Rattle.lxtr_spec.specs.Labels.{labels_of};
ghost use Rattle.lxtr_spec.specs.Image.{slot_count};
ghost use Rattle.lxtr_spec.specs.Walks.{step, step_by, walk, walk_within, value_at, longer_at};
ghost use Rattle.lxtr_spec.specs.Searches.{search_refusal};

use lxtr_bytes::labels::{Labels, label_count};
use lxtr_image::Image;
use lxtr_spec::MAX_LABELS;
use lxtr_spec::refusals::Refusal;

// The image, or the first of refusals 1 to 8 of it, then 13 of the query, that holds.
pub fn open<'a>(image: &'a [u8], query: &[u8]) -> Result<Image<'a>, Refusal>
    ensures refusal { refusal_of result ≡ search_refusal image.now query.now }
    ensures bytes { IfOk result (λ i. i ≡ image.now) }
{
    let opened = lxtr_header::read(image)?;
    if query.len() % 4 != 0 {
        return Err(Refusal::WrongQueryLength);
    }
    Ok(opened)
}

// The step from slot n by a code, if it exists.
#[tactic(auto, unfolding(lxtr_spec::specs::Walks::step, lxtr_spec::specs::Image::has_parent))]
pub fn step(image: &Image, n: u32, code: u32) -> Option<u32>
    requires { n < slot_count image.now }
    ensures value { result ≡ step image.now n code }
    ensures below { IfSome result (λ t. t < slot_count image.now) }
{
    if image.is_leaf(n) {
        return None;
    }
    let t = image.slot_from(n, code);
    if !image.has_parent(t, n) {
        return None;
    }
    Some(t)
}

// The step from slot n by a label. A label that isn't listed stops the walk.
#[tactic(auto, unfolding(lxtr_spec::specs::Walks::step_by))]
#[inline(always)]
pub fn step_by(image: &Image, n: u32, label: u32) -> Option<u32>
    requires { n < slot_count image.now }
    ensures value { result ≡ step_by image.now n label }
    ensures below { IfSome result (λ t. t < slot_count image.now) }
{
    let code = image.code_of(label)?;
    step(image, n, code)
}

// The slot that the labels of a query reach from slot 1.
#[tactic(auto, unfolding(lxtr_spec::specs::Walks::walk))]
fn walk(image: &Image, query: &[u8]) -> Option<u32>
    ensures value { result ≡ walk image.now 1 (labels_of query.now) }
    ensures below { IfSome result (λ n. n < slot_count image.now) }
{
    let mut n = image.root();
    for label in Labels::of(query) {
        n = step_by(image, n, label)?;
    }
    Some(n)
}

// The same, but nothing for a query of more than MAX_LABELS labels.
#[tactic(auto, unfolding(lxtr_spec::specs::Labels::max_labels, lxtr_spec::specs::Walks::walk_within))]
pub fn walk_within(image: &Image, query: &[u8]) -> Option<u32>
    ensures value { result ≡ walk_within image.now (labels_of query.now) }
    ensures below { IfSome result (λ n. n < slot_count image.now) }
{
    if MAX_LABELS < label_count(query) {
        return None;
    }
    walk(image, query)
}

// The value at slot n, if HAS_LEAF is set and the step by 0 reaches a leaf.
#[tactic(auto, unfolding(lxtr_spec::specs::Walks::value_at, lxtr_spec::specs::Walks::leaf_value))]
pub fn value_at(image: &Image, n: u32) -> Option<u32>
    requires { n < slot_count image.now }
    ensures { result ≡ value_at image.now n }
{
    if !image.has_leaf(n) {
        return None;
    }
    let t = step(image, n, 0)?;
    if !image.is_leaf(t) {
        return None;
    }
    Some(image.value_number(t))
}

// Whether longer keys exist at slot n: the width of its list is above 1 with HAS_LEAF set, above 0 without.
#[tactic(auto, unfolding(lxtr_spec::specs::Walks::longer_at))]
pub fn longer_at(image: &Image, n: u32) -> bool
    requires { n < slot_count image.now }
    ensures { result ≡ longer_at image.now n }
{
    let width = image.list_width(n);
    if image.has_leaf(n) {
        return 1 < width;
    }
    0 < width
}
