// A typing position, for any bytes as image: it takes one more label or takes the last one back, and answers what a lookup would
// answer for the labels typed so far, without walking from slot 1 again. Any caller may use it; `numbers` is for `lxtr_c`.
#![tactic(auto)]

pub mod numbers; // the position as a number

ghost use Rattle.std.specs.Prelude.{◌≡◌, ◌<◌, IfSome};
ghost use Rattle.lxtr_spec.specs.Answers.{refusal_of, answer_or};
ghost use Rattle.lxtr_spec.specs.Labels.{max_labels};
ghost use Rattle.lxtr_spec.specs.Image.{slot_count};
ghost use Rattle.lxtr_spec.specs.Positions.{fresh_position, slot_by, pushed, taken_back, is_placed, reached_slot, push_of, back_of, position_lookup_of};
ghost use Rattle.lxtr_spec.specs.declared.Case.TheVariants.{Neither};
ghost use Rattle.lxtr_position.specs.Means.{position_means};

use lxtr_header::read;
use lxtr_image::Image;
use lxtr_search::cases::case_at;
use lxtr_spec::refusals::Refusal;
use lxtr_spec::{Case, MAX_LABELS, MAX_TYPED};
use lxtr_walk::step_by;

// How many labels were typed, how many of them were walked from slot 1 (all before the first that failed, at most MAX_LABELS), and
// the slot that these reach. The slot before it is its parent, so no list of slots is kept.
#[derive(Clone, Copy, Debug, PartialEq, Eq)]
pub struct Position {
    pub slot: u32,
    pub walked: u16,
    pub typed: u16,
}

impl Position {
    // No labels.
    #[tactic(auto, unfolding(lxtr_spec::specs::Positions::fresh_position))]
    pub fn fresh() -> Position
        ensures { position_means result ≡ fresh_position }
    {
        Position {
            slot: 1,
            walked: 0,
            typed: 0,
        }
    }

    // The slot that one more label reaches; none if the label only counts.
    #[tactic(auto, unfolding(lxtr_spec::specs::Labels::max_labels, lxtr_spec::specs::Positions::slot_by, lxtr_spec::specs::Positions::all_walked))]
    fn slot_by(self, image: &Image, label: u32) -> Option<u32>
        requires { self.slot < slot_count image.now }
        ensures value { result ≡ slot_by image.now (position_means self) label }
        ensures few { IfSome result (λ _. self.walked < max_labels) }
    {
        if self.walked != self.typed || MAX_LABELS <= self.typed as usize {
            return None;
        }
        step_by(image, self.slot, label)
    }

    // One more label, in an image that has the position's slot.
    #[tactic(auto, unfolding(lxtr_spec::specs::Labels::max_labels, lxtr_spec::specs::Positions::max_typed, lxtr_spec::specs::Positions::pushed, lxtr_spec::specs::Positions::one_more))]
    fn pushed(self, image: &Image, label: u32) -> Position
        requires { self.slot < slot_count image.now }
        ensures { position_means result ≡ pushed image.now (position_means self) label }
    {
        if MAX_TYPED <= self.typed {
            return self;
        }
        let typed = self.typed + 1;
        match self.slot_by(image, label) {
            Some(slot) => Position {
                slot,
                walked: self.walked + 1,
                typed,
            },
            None => Position { typed, ..self },
        }
    }

    // The last label taken back, in an image that has the position's slot.
    #[tactic(auto, unfolding(lxtr_spec::specs::Positions::taken_back, lxtr_spec::specs::Positions::one_less, lxtr_spec::specs::Positions::all_walked))]
    fn taken_back(self, image: &Image) -> Position
        requires { self.slot < slot_count image.now }
        ensures { position_means result ≡ taken_back image.now (position_means self) }
    {
        if self.typed == 0 {
            return self;
        }
        let typed = self.typed - 1;
        if self.walked == self.typed {
            return Position {
                slot: image.parent(self.slot),
                walked: self.walked - 1,
                typed,
            };
        }
        Position { typed, ..self }
    }

    // Whether the image has the position's slot.
    #[tactic(auto, unfolding(lxtr_spec::specs::Positions::is_placed))]
    fn is_placed(self, image: &Image) -> bool
        ensures { result ≡ is_placed image.now (position_means self) }
    {
        self.slot < image.slot_count()
    }

    // The place, if all labels typed reach it.
    #[tactic(auto, unfolding(lxtr_spec::specs::Positions::is_placed, lxtr_spec::specs::Positions::reached_slot, lxtr_spec::specs::Positions::all_walked))]
    fn reached_slot(self, image: &Image) -> Option<u32>
        ensures value { result ≡ reached_slot image.now (position_means self) }
        ensures below { IfSome result (λ n. n < slot_count image.now) }
    {
        if !self.is_placed(image) || self.typed != self.walked {
            return None;
        }
        Some(self.slot)
    }

    // The position after one more label. A refusal answers none: the position stays the one before.
    #[tactic(auto, unfolding(lxtr_spec::specs::Positions::is_placed, lxtr_spec::specs::Positions::push_of, lxtr_spec::specs::Positions::moved_to, lxtr_spec::specs::Positions::move_answer, lxtr_spec::specs::Refusals::unless_refused))]
    pub fn push(self, image: &[u8], label: u32) -> Result<Position, Refusal>
        ensures { record { refusal = refusal_of result; position = position_means (answer_or self result) } ≡ push_of image.now (position_means self) label }
    {
        let opened = read(image)?;
        if !self.is_placed(&opened) {
            return Ok(self);
        }
        Ok(self.pushed(&opened, label))
    }

    // The position after the last label is taken back. A refusal answers none: the position stays the one before.
    #[tactic(auto, unfolding(lxtr_spec::specs::Positions::is_placed, lxtr_spec::specs::Positions::back_of, lxtr_spec::specs::Positions::moved_to, lxtr_spec::specs::Positions::move_answer, lxtr_spec::specs::Refusals::unless_refused))]
    pub fn back(self, image: &[u8]) -> Result<Position, Refusal>
        ensures { record { refusal = refusal_of result; position = position_means (answer_or self result) } ≡ back_of image.now (position_means self) }
    {
        let opened = read(image)?;
        if !self.is_placed(&opened) {
            return Ok(self);
        }
        Ok(self.taken_back(&opened))
    }

    // What a lookup of the labels typed so far would answer.
    #[tactic(auto, unfolding(lxtr_spec::specs::Positions::position_lookup_of, lxtr_spec::specs::Refusals::unless_refused))]
    pub fn lookup(self, image: &[u8]) -> Result<Case, Refusal>
        ensures { record { refusal = refusal_of result; case = answer_or Neither result } ≡ position_lookup_of image.now (position_means self) }
    {
        let opened = read(image)?;
        Ok(case_at(&opened, self.reached_slot(&opened)))
    }
}
