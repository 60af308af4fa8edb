// Writes the records of a listing into lent room, one after the other, until one has no room.
ghost use Rattle.std.specs.Prelude.{◌≡◌, ◌+◌, ◌*◌, ◌≤◌, ◌<◌, ◌^◌, ◌∷◌, length, Some, IfNone, is_none};
ghost use Rattle.std.specs.Option.{ForSome};
ghost use Rattle.lxtr_spec.specs.Numbers.{be_bytes, be_words};
ghost use Rattle.lxtr_spec.specs.Labels.{max_labels};
ghost use Rattle.lxtr_laws.specs.Overlays.{over};
ghost use Rattle.lxtr_complete.specs.RecordWriting.{state, place, put};

use lxtr_bytes::heads::{HEAD_LENGTH, put_head};
use lxtr_bytes::numbers::put_be32;
use lxtr_spec::Listing;

// The records written so far: where they end, or none once a record had no room, and how many they are.
#[derive(Drop)]
pub struct Records<'a> {
    room: &'a mut [u8],
    end: Option<usize>,
    count: usize,
    ghost in_room: { ForSome end (λ at. (at ≤ length room.now) × (count < at)) },
}

// Writes words at position `at`.
fn put_words(words: &[u32], room: &mut [u8], at: usize)
    requires { at + 4 * length words.now ≤ length room.old }
    ensures { room.new ≡ over room.old at (be_words words.now) }
{
    for (i, x) in words.iter().enumerate() {
        put_be32(room, at + 4 * i, *x);
    }
}

impl<'a> Records<'a> {
    // No records; they will start after version and count.
    pub fn new(room: &'a mut [u8]) -> Self
        requires { 5 ≤ length room.old }
        ensures room { result.room ≡ room.entry }
        ensures end { result.end ≡ Some 5 }
        ensures count { result.count ≡ 0 }
    {
        Records {
            room,
            end: Some(HEAD_LENGTH),
            count: 0,
        }
    }

    // Writes the record of a key and its value: the length byte, the labels and the value. None if there is no room for it, or was none
    // for one before.
    pub fn put(&mut self, key: &[u32], value: u32) -> Option<()>
        requires { length key.now ≤ max_labels }
        ensures state { state self.new.room.now (place self.new.end) self.new.count ≡ put (state self.old.room.now (place self.old.end) self.old.count) (key.now, value) }
        ensures stopped { IfNone result (place self.new.end ≡ 0) }
        ensures same_room { self.new.room.ghost_name ≡ self.old.room.ghost_name }
    {
        let end = self.end?;
        let need = 5 + 4 * key.len();
        if self.room.len() - end < need {
            self.end = None;
            return None;
        }
        self.room[end] = key.len() as u8;
        put_words(key, self.room, end + 1);
        put_be32(self.room, end + 1 + 4 * key.len(), value);
        self.end = Some(end + need);
        self.count += 1;
        Some(())
    }

    // Writes version and count, which come first, but are written last, when the count is known.
    pub fn finish(&mut self) -> Listing
        requires length { 5 ≤ length self.old.room.now }
        requires count { self.old.count < 2 ^ 32 }
        ensures room { self.new.room.now ≡ over self.old.room.now 0 (1 ∷ be_bytes self.old.count) }
        ensures count { result.count ≡ self.old.count }
        ensures stopped { result.stopped ≡ is_none self.old.end }
        ensures same_room { self.new.room.ghost_name ≡ self.old.room.ghost_name }
    {
        let count = self.count as u32;
        put_head(self.room, 0, count);
        Listing {
            count,
            stopped: self.end.is_none(),
        }
    }
}
