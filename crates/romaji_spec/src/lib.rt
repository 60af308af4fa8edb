// Romaji typing: the state, the limit of what is kept, and the refusals. Their meaning is defined in specs/, which holds request 1 of
// document 02 as definitions.
#![tactic(auto)]

ghost use Rattle.std.specs.Prelude.{◌≡◌};
ghost use Rattle.romaji_spec.specs.Typing.{typing_number};
ghost use Rattle.romaji_spec.specs.declared.TypingRefusal.TheVariants.{Image};

use lxtr_spec::MAX_LABELS;
use lxtr_spec::refusals::{Numbered, Refusal};

// What is kept back is a proper front part of a key, so it has at least one label less than a key may have.
pub const MAX_KEPT: usize = MAX_LABELS - 1;

// What is kept from one call to the next: `count` bytes at the front of `kept`. The others are zero. An array, because there is no
// heap, and the number of bytes with it, as in the definitions (`State`).
#[derive(Clone, Copy, Debug, PartialEq, Eq)]
pub struct State {
    pub count: u8,
    pub kept: [u8; MAX_KEPT],
}

// Why nothing was typed. If one is given, no label went out, and the state is the one before the call.
#[derive(Clone, Copy, Debug, PartialEq, Eq)]
pub enum TypingRefusal {
    // 1 to 12, of the image
    Image(Refusal),
    // 24: the table ends before the text of some value in the image is whole
    TableTooShort,
    // 25: the image has the empty key
    EmptyKey,
    // 29: no room for what goes out
    NoRoom,
}

impl Numbered for TypingRefusal {
    ghost numbered = { typing_number };

    fn number(self) -> u8 {
        match self {
            TypingRefusal::Image(refusal) => refusal.number(),
            TypingRefusal::TableTooShort => 24,
            TypingRefusal::EmptyKey => 25,
            TypingRefusal::NoRoom => 29,
        }
    }
}

impl From<Refusal> for TypingRefusal {
    ghost from_gives = { λ r e. e ≡ Image r };

    fn from(r: Refusal) -> TypingRefusal {
        TypingRefusal::Image(r)
    }
}
