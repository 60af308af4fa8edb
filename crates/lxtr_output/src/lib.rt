// Texts for standard output, each given by its place among several. Every literal makes the proof of its function longer, so a
// program has all its texts in one literal, and refers to them by their places.
#![tactic(auto)]

// The system's numbers of the standard streams.
pub const STANDARD_INPUT: i32 = 0;

pub const STANDARD_OUTPUT: i32 = 1;

pub const STANDARD_ERROR: i32 = 2;

// The text of a place, a number because it counts texts in a literal: from 0, and each text ends with a vertical bar.
pub fn text_at(texts: &[u8], place: u8) -> &[u8] {
    texts
        .split(|c| *c == b'|')
        .nth(place as usize)
        .unwrap_or(b"")
}

pub fn print(text: &[u8]) {
    io::write_all(STANDARD_OUTPUT, text);
}
