// The labels of a text in UTF-8 (RFC 3629): how many there are, and writing them into lent room, as in a query. Also the byte
// order mark at the front of a text. Nothing is assumed about the text. specs/ proves that a text has one reading, and that the
// order of texts by bytes is their order by labels.
#![tactic(auto)]

ghost use Rattle.std.specs.Prelude.{◌≡◌, ◌*◌, ◌≤◌, length, IfOk};
ghost use Rattle.std.specs.Str.{chars};
ghost use Rattle.lxtr_spec.specs.Numbers.{be_words};
ghost use Rattle.lxtr_laws.specs.Overlays.{over};
ghost use Rattle.lxtr_command_spec.specs.Utf8.{decoded_in, count_of, decoding_of};
ghost use Rattle.lxtr_command_spec.specs.WordLists.{mark_length};

use lxtr_bytes::numbers::put_be32;
use lxtr_command_spec::TextProblem;

// The byte order mark, U+FEFF in UTF-8.
const MARK: &[u8] = b"\xEF\xBB\xBF";

// The same as `count_labels`. Out of line, so that `count_labels` stays small.
#[inline(never)]
fn count_characters(text: &[u8]) -> Result<usize, TextProblem>
    ensures { decoded_in result ≡ count_of text.now }
{
    match str::from_utf8(text) {
        Ok(s) => Ok(s.chars().count()),
        Err(_) => Err(TextProblem::NotUtf8),
    }
}

// How many labels the text has, or that it is not UTF-8. Whether it is ASCII is asked first and without a call, because many texts
// are short or empty.
#[inline(always)]
pub fn count_labels(text: &[u8]) -> Result<usize, TextProblem>
    ensures { decoded_in result ≡ count_of text.now }
{
    if text.is_ascii() {
        return Ok(text.len());
    }
    count_characters(text)
}

// Writes the labels of a text to the front of room that is long enough.
fn put_labels(text: &str, room: &mut [u8])
    requires { 4 * length (chars text.now) ≤ length room.old }
    ensures { room.new ≡ over room.old 0 (be_words (chars text.now)) }
{
    let mut at = 0;
    for c in text.chars() {
        put_be32(room, at, c as u32);
        at += 4;
    }
}

// Decodes the text into the room, four bytes to a label, big-endian. If there is a problem, nothing is written.
pub fn decode(text: &[u8], room: &mut [u8]) -> Result<usize, TextProblem>
    ensures answer { record { answer = decoded_in result; room = room.new } ≡ decoding_of text.now room.old }
    ensures within { IfOk result (λ n. 4 * n ≤ length room.new) }
{
    let Ok(text) = str::from_utf8(text) else {
        return Err(TextProblem::NotUtf8);
    };
    let count = text.chars().count();
    if room.len() / 4 < count {
        return Err(TextProblem::NoRoom);
    }
    put_labels(text, room);
    Ok(count)
}

// The length of the byte order mark at the front of the text; 0 if it has none. The words start after it.
#[tactic(auto, unfolding(lxtr_command_spec::specs::WordLists::mark_length))]
pub fn mark_length(text: &[u8]) -> usize
    ensures value { result ≡ mark_length text.now }
    ensures upper_bound { result ≤ length text.now }
{
    if text.starts_with(MARK) {
        MARK.len()
    } else {
        0
    }
}
