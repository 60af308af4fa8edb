// The pieces of a text: the one at a place, how many labels go out for it, and writing them.
ghost use Rattle.std.specs.Prelude.{◌≡◌, ◌+◌, ◌*◌, ◌^◌, ◌≤◌, ◌<◌, length, get_or, drop, leb, IfSome};
ghost use Rattle.lxtr_spec.specs.Numbers.{be_words};
ghost use Rattle.lxtr_spec.specs.Labels.{labels_of};
ghost use Rattle.lxtr_laws.specs.Overlays.{over};
ghost use Rattle.romaji.specs.NextPieces.{NextIs, out_by};
ghost use Rattle.romaji.specs.Progress.{out_of};
ghost use Rattle.romaji.specs.Writing.{Converts};

use crate::keys::Keys;
use crate::tables::Kana;
use crate::texts::Text;
use lxtr_bytes::labels::{Labels, label_count};
use lxtr_bytes::numbers::put_be32;
use lxtr_spec::MAX_LABELS;
use romaji_spec::MAX_KEPT;

// A piece of the text: its length in bytes, and the value of the key, or none if it is a byte that passes.
#[derive(Clone, Copy, Debug, PartialEq, Eq)]
pub struct Piece {
    pub length: usize,
    pub value: Option<u32>,
}

// A text to be converted by these keys and this table; with `keeping`, a rest that could still grow is kept.
#[derive(Drop)]
pub struct Conversion<'a> {
    pub keys: Keys<'a>,
    pub kana: Kana<'a>,
    pub text: Text<'a>,
    pub keeping: bool,
}

// How far the text was converted: to place `at`, with `count` labels.
#[derive(Clone, Copy, Debug, PartialEq, Eq)]
pub struct Converted {
    pub at: usize,
    pub count: usize,
}

// Writes the labels of `text` into the room, starting at label `at`. Label by label, since a copy of bytes would need a function that
// the archive for C does not have.
fn put_text(text: &[u8], room: &mut [u8], at: usize)
    requires { 4 * (at + length (labels_of text.now)) ≤ length room.old }
    ensures { room.new ≡ over room.old (4 * at) (be_words (labels_of text.now)) }
{
    for (i, label) in Labels::of(text).enumerate() {
        put_be32(room, 4 * (at + i), label);
    }
}

impl<'a> Conversion<'a> {
    // The piece at place `at` of the text, or none if the text ends there or is kept from there on.
    fn piece(&self, at: usize) -> Option<Piece>
        requires { at ≤ length self.now.text }
        ensures next { NextIs self.now.keeping self.now.keys (drop at self.now.text) result }
        ensures fits { IfSome result (λ p. at + p.length < 2 ^ 64) }
    {
        let left = self.text.len() - at;
        if left == 0 {
            return None;
        }
        // no key is longer than these bytes
        let count = left.min(MAX_LABELS);
        let mut query = [0u8; 4 * MAX_LABELS];
        self.text.put_query(at, at + count, &mut query);
        let end = 4 * count;
        self.keys
            .front(&query[..end], self.keeping & (left <= MAX_KEPT))
    }

    // How many labels go out for a piece: for the text of a value, or for a byte that passes.
    #[tactic(auto, using(crate::specs::NextPieces::text_count, crate::specs::NextPieces::byte_count))]
    fn out_count(&self, value: Option<u32>) -> usize
        ensures { result ≡ length (out_by self.now.kana 0 value) }
    {
        match value {
            Some(v) => label_count(self.kana.text(v)),
            None => 1,
        }
    }

    // Writes the labels that go out for the piece at place `at` into the room, starting at label `count`: the text of its value, or
    // the byte there. Returns the number of labels with them.
    fn put_piece(&self, at: usize, value: Option<u32>, room: &mut [u8], count: usize) -> usize
        requires at_in_bounds { at < length self.now.text }
        requires value_in_bounds { 4 * (count + length (out_by self.now.kana (get_or self.now.text at 0) value)) ≤ length room.old }
        ensures value { result ≡ count + length (out_by self.now.kana (get_or self.now.text at 0) value) }
        ensures room_after { room.new ≡ over room.old (4 * count) (be_words (out_by self.now.kana (get_or self.now.text at 0) value)) }
    {
        match value {
            Some(v) => {
                let text = self.kana.text(v);
                put_text(text, room, count);
                count + label_count(text)
            }
            None => {
                self.text.put_label(at, room, count);
                count + 1
            }
        }
    }

    // Whether at most `room` labels go out for the text. Where the next piece begins is known only when this one is found.
    pub fn fits(&self, room: usize) -> bool
        ensures { result ≡ leb (length (out_of self.now.keeping self.now.keys self.now.kana self.now.text)) room }
    {
        let mut left = room;
        let mut at = 0;
        while let Some(piece) = self.piece(at) {
            let count = self.out_count(piece.value);
            if left < count {
                return false;
            }
            left -= count;
            at += piece.length;
        }
        true
    }

    // Writes the labels that go out for the text to the room's front.
    pub fn put(&self, room: &mut [u8]) -> Converted
        requires { 4 * length (out_of self.now.keeping self.now.keys self.now.kana self.now.text) ≤ length room.old }
        ensures { Converts self.now.keeping self.now.keys self.now.kana self.now.text room.old result.at result.count room.new }
    {
        let mut at = 0;
        let mut count = 0;
        // No count: where the next piece begins is known only when this one is found.
        while let Some(piece) = self.piece(at) {
            count = self.put_piece(at, piece.value, room, count);
            at += piece.length;
        }
        Converted { at, count }
    }
}
