// The text that is converted: the bytes kept, then those typed now. It is never put together; its bytes are read by their places.
ghost use Rattle.std.specs.Prelude.{◌≡◌, ◌++◌, ◌+◌, ◌-◌, ◌*◌, ◌≤◌, ◌<◌, length, get_or, take, drop};
ghost use Rattle.lxtr_spec.specs.Numbers.{be_bytes, be_words};
ghost use Rattle.lxtr_laws.specs.Overlays.{over};
ghost use Rattle.romaji_spec.specs.Pieces.{max_kept};
ghost use Rattle.romaji_spec.specs.Typing.{state_of};

use lxtr_bytes::numbers::put_be32;
use romaji_spec::{MAX_KEPT, State};
use std::marker::Model;

// In a contract a text is the list of its bytes.
#[derive(Drop)]
pub struct Text<'a> {
    kept: &'a [u8],
    typed: &'a [u8],
}

impl<'a> Model for Text<'a> {
    ghost use Rattle.std.specs.Prelude.{List, ℕ, ◌++◌};

    ghost Value = { List ℕ };

    ghost view = { λ t. t.kept.now ++ t.typed.now };
}

impl<'a> Text<'a> {
    pub fn new(kept: &'a [u8], typed: &'a [u8]) -> Self
        ensures { result ≡ kept.now ++ typed.now }
    {
        Text { kept, typed }
    }

    // The length of the text.
    pub fn len(&self) -> usize
        ensures { result ≡ length self.now }
    {
        self.kept.len() + self.typed.len()
    }

    // The byte at place i.
    pub fn byte(&self, i: usize) -> u8
        requires { i < length self.now }
        ensures { result ≡ get_or self.now i 0 }
    {
        if i < self.kept.len() {
            self.kept[i]
        } else {
            self.typed[i - self.kept.len()]
        }
    }

    // Writes the byte at place `at` of the text as label i of the room.
    pub fn put_label(&self, at: usize, room: &mut [u8], i: usize)
        requires at_in_bounds { at < length self.now }
        requires i_in_bounds { 4 * i + 4 ≤ length room.old }
        ensures { room.new ≡ over room.old (4 * i) (be_bytes (get_or self.now at 0)) }
    {
        put_be32(room, 4 * i, self.byte(at) as u32);
    }

    // Writes the bytes of the text from place `from` up to place `to` to the front of `query`, each as a label.
    pub fn put_query(&self, from: usize, to: usize, query: &mut [u8])
        requires in_order { from ≤ to }
        requires to_in_text { to ≤ length self.now }
        requires count_in_query { 4 * (to - from) ≤ length query.old }
        ensures { query.new ≡ over query.old 0 (be_words (take (to - from) (drop from self.now))) }
    {
        for i in from..to {
            self.put_label(i, query, i - from);
        }
    }

    // The state that keeps the text from place `at` on.
    pub fn rest(&self, at: usize) -> State
        requires at_in_bounds { at ≤ length self.now }
        requires rest_kept { length self.now ≤ at + max_kept }
        ensures { result ≡ state_of (drop at self.now) }
    {
        let count = self.len() - at;
        let mut kept = [0u8; MAX_KEPT];
        for i in 0..count {
            kept[i] = self.byte(at + i);
        }
        State {
            count: count as u8,
            kept,
        }
    }
}
