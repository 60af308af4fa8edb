// Why a query is found or not: the one reason, for any bytes as image and query. It walks every image that passes refusals 1 to 8,
// whether or not the check would accept it. Any caller may use `why`.
#![tactic(auto)]

ghost use Rattle.std.specs.Prelude.{◌≡◌, ◌<◌};
ghost use Rattle.lxtr_spec.specs.Answers.{refusal_of, some_answer};
ghost use Rattle.lxtr_spec.specs.Labels.{labels_of};
ghost use Rattle.lxtr_spec.specs.Image.{slot_count};
ghost use Rattle.lxtr_spec.specs.Walks.{value_at};
ghost use Rattle.lxtr_spec.specs.Reasons.{ended_with, stopped_at, reason_of, why_of};

use lxtr_bytes::labels::{Labels, label_count};
use lxtr_image::Image;
use lxtr_spec::refusals::Refusal;
use lxtr_spec::{MAX_LABELS, Reason};
use lxtr_walk::{open, step_by, value_at};

// Why a walk stopped at a label, whose place in the query is i: it isn't listed, or it has no step.
#[tactic(auto, unfolding(lxtr_spec::specs::Reasons::stopped_at))]
fn stopped_at(image: &Image, i: u32, label: u32) -> Reason
    ensures { result ≡ stopped_at image.now i label }
{
    match image.code_of(label) {
        Some(_) => Reason::NoStep(i),
        None => Reason::NotListed(i),
    }
}

// The reason if all labels were walked, and reached slot n.
#[tactic(auto, unfolding(lxtr_spec::specs::Reasons::ended_with))]
fn ended_at(image: &Image, n: u32) -> Reason
    requires { n < slot_count image.now }
    ensures { result ≡ ended_with (value_at image.now n) }
{
    match value_at(image, n) {
        Some(_) => Reason::IsFound,
        None => Reason::NoKeyEnds,
    }
}

// The reason for a query that is not refused. Too long comes before walking. The code of a label is asked for again only where the walk
// stops.
#[tactic(auto, unfolding(lxtr_spec::specs::Labels::max_labels, lxtr_spec::specs::Reasons::reason_of, lxtr_spec::specs::Reasons::reason_from))]
fn reason(image: &Image, query: &[u8]) -> Reason
    ensures { result ≡ reason_of image.now (labels_of query.now) }
{
    if MAX_LABELS < label_count(query) {
        return Reason::TooLong;
    }
    let mut n = image.root();
    for (i, label) in Labels::of(query).enumerate() {
        let Some(t) = step_by(image, n, label) else {
            return stopped_at(image, i as u32, label);
        };
        n = t;
    }
    ended_at(image, n)
}

// Why the query is found or not.
pub fn why(image: &[u8], query: &[u8]) -> Result<Reason, Refusal>
    ensures { record { refusal = refusal_of result; reason = some_answer result } ≡ why_of image.now query.now }
{
    Ok(reason(&open(image, query)?, query))
}
