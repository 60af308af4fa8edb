// Romaji typing: typed bytes go out as kana, by an image whose keys are romaji and a table of kana for its values. Nothing is
// assumed about image, table, state, text and room. The image is read only by operations of the library, of which only the
// contracts are used.
#![tactic(auto)]

mod tables; // the texts of the kana table
mod texts; // the text: what was kept, then what is typed
mod keys; // the keys of the image, which does not have the empty key
mod pieces; // the pieces of the text, and what goes out for them
pub mod states; // the state as bytes, for C

ghost use Rattle.std.specs.Prelude.{◌≡◌};
ghost use Rattle.lxtr_spec.specs.Answers.{number_by, answer_or};
ghost use Rattle.romaji_spec.specs.Pieces.{cut};
ghost use Rattle.romaji_spec.specs.Typing.{typing_number, answered, convert, type_of, finish_of};

use crate::keys::Keys;
use crate::pieces::Conversion;
use crate::tables::{INDEXED, Kana};
use crate::texts::Text;
use lxtr_highest::highest;
use romaji_spec::{MAX_KEPT, State, TypingRefusal};

// Converts a text, if there is room: how many labels go out. The state then keeps the rest.
fn run(conversion: &Conversion, state: &mut State, room: &mut [u8]) -> Result<usize, TypingRefusal>
    ensures { record { answer = record { refusal = number_by typing_number result; count = answer_or 0 result; state = state.new }; room = room.new } ≡ answered conversion.now.kana state.old room.old (cut conversion.now.keeping conversion.now.keys conversion.now.text) }
{
    if !conversion.fits(room.len() / 4) {
        return Err(TypingRefusal::NoRoom);
    }
    let done = conversion.put(room);
    *state = conversion.text.rest(done.at);
    Ok(done.count)
}

// Converts what the state keeps and what is typed.
fn convert(
    image: &[u8],
    kana: &[u8],
    state: &mut State,
    typed: &[u8],
    room: &mut [u8],
    keeping: bool,
) -> Result<usize, TypingRefusal>
    ensures { record { answer = record { refusal = number_by typing_number result; count = answer_or 0 result; state = state.new }; room = room.new } ≡ convert keeping image.now kana.now state.old typed.now room.old }
{
    let top = highest(image)?;
    let mut places = [0; INDEXED];
    let kana = Kana::new(kana, top, &mut places);
    if kana.is_short(top) {
        return Err(TypingRefusal::TableTooShort);
    }
    let keys = Keys::read(image)?;
    let count = (state.count as usize).min(MAX_KEPT);
    let kept = state.kept;
    let text = Text::new(&kept[..count], typed);
    let conversion = Conversion {
        keys,
        kana,
        text,
        keeping,
    };
    run(&conversion, state, room)
}

// Types bytes: the kana of what is kept and typed goes out, from the room's front, and the number of its labels is the answer. A rest
// that could still grow is kept in the state. A refusal leaves state and room as they were.
#[tactic(auto, unfolding(romaji_spec::specs::Typing::type_of))]
pub fn type_bytes(
    image: &[u8],
    kana: &[u8],
    state: &mut State,
    typed: &[u8],
    room: &mut [u8],
) -> Result<usize, TypingRefusal>
    ensures { record { answer = record { refusal = number_by typing_number result; count = answer_or 0 result; state = state.new }; room = room.new } ≡ type_of image.now kana.now state.old typed.now room.old }
{
    convert(image, kana, state, typed, room, true)
}

// Finishes: the kana of what is kept goes out, and nothing is kept.
#[tactic(auto, unfolding(romaji_spec::specs::Typing::finish_of))]
pub fn finish(
    image: &[u8],
    kana: &[u8],
    state: &mut State,
    room: &mut [u8],
) -> Result<usize, TypingRefusal>
    ensures { record { answer = record { refusal = number_by typing_number result; count = answer_or 0 result; state = state.new }; room = room.new } ≡ finish_of image.now kana.now state.old room.old }
{
    convert(image, kana, state, b"", room, false)
}
