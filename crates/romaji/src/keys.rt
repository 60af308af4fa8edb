// The keys of an image, which are romaji: what a query is to them. A query that the image refuses is nothing to them.
ghost use Rattle.std.specs.Prelude.{◌≡◌, true, false, ◌&&◌, ◌%◌, length, MatchResult};
ghost use Rattle.lxtr_spec.specs.Searches.{case_longer, lookup_of};
ghost use Rattle.romaji_spec.specs.Typing.{has_empty_key, typing_number};
ghost use Rattle.romaji.specs.NextPieces.{Looked, FrontIs};

use crate::pieces::Piece;
use lxtr_search::cases::{has_longer, value};
use lxtr_search::{longest, lookup};
use lxtr_spec::Case;
use romaji_spec::TypingRefusal;
use std::marker::Model;

// The case of a query, or nothing if it is refused.
fn case_of(image: &[u8], query: &[u8]) -> Case
    ensures { result ≡ (lookup_of image.now query.now).case }
{
    lookup(image, query).unwrap_or(Case::Neither)
}

// Whether the image has the empty key.
#[tactic(auto, unfolding(romaji_spec::specs::Typing::has_empty_key, romaji_spec::specs::Typing::is_value))]
fn has_empty_key(image: &[u8]) -> bool
    ensures { result ≡ has_empty_key image.now }
{
    value(case_of(image, b"")).is_some()
}

// An image that does not have the empty key; in a contract it is its bytes.
#[derive(Drop)]
pub struct Keys<'a> {
    image: &'a [u8],
}

impl<'a> Model for Keys<'a> {
    ghost use Rattle.std.specs.Prelude.{◌≡◌, List, ℕ, false};
    ghost use Rattle.romaji_spec.specs.Typing.{has_empty_key};

    ghost Value = { List ℕ };

    ghost view = { λ k. k.image.now };

    ghost invariant = { λ k. has_empty_key k.image.now ≡ false };
}

impl<'a> Keys<'a> {
    // The keys of an image, or 25 if it has the empty key.
    pub fn read(image: &'a [u8]) -> Result<Self, TypingRefusal>
        ensures { MatchResult result (λ k. (k ≡ image.now) × (has_empty_key image.now ≡ false)) (λ e. (typing_number e ≡ 25) × (has_empty_key image.now ≡ true)) }
    {
        if has_empty_key(image) {
            return Err(TypingRefusal::EmptyKey);
        }
        Ok(Keys { image })
    }

    // Whether a query is kept back: with `keeping`, if it is a proper front part of a key.
    fn waits(&self, query: &[u8], keeping: bool) -> bool
        ensures { result ≡ (keeping && case_longer (lookup_of self.now query.now).case) }
    {
        keeping && has_longer(case_of(self.image, query))
    }

    // The longest key at the front of a query, or one label if there is none.
    fn longest_key(&self, query: &[u8]) -> Piece
        requires { length query.now % 4 ≡ 0 }
        ensures { Looked self.now query.now result }
    {
        let part = longest(self.image, query).unwrap_or(&query[..0]);
        match value(case_of(self.image, part)) {
            Some(v) => Piece {
                length: part.len() / 4,
                value: Some(v),
            },
            None => Piece {
                length: 1,
                value: None,
            },
        }
    }

    // The piece at the front of a query, or none if the query is kept back.
    #[tactic(auto, using(crate::specs::NextPieces::front_waits, crate::specs::NextPieces::front_goes))]
    pub fn front(&self, query: &[u8], keeping: bool) -> Option<Piece>
        requires { length query.now % 4 ≡ 0 }
        ensures { FrontIs keeping self.now query.now result }
    {
        if self.waits(query, keeping) {
            return None;
        }
        Some(self.longest_key(query))
    }
}
