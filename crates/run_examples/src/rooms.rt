// The arrays that the program lends, and parts of them. They are lent as arrays, so that no proof has to count their elements.

// Room for the script.
pub const SCRIPT_ROOM: usize = 65536;

// The most that is lent to the builder, and to completion.
pub const WORK_WORDS: usize = 16384;

pub const OUTPUT_ROOM: usize = 147480;

pub const LISTING_ROOM: usize = 512;

// What they are filled with before a call.
pub const FILLING_WORD: u32 = 7;

pub const FILLING_BYTE: u8 = 0xEE;

// Whether the bytes from position `from` to the end are still the filling.
pub fn is_left(out: &[u8; OUTPUT_ROOM], from: usize) -> bool {
    out.iter().skip(from).all(|byte| *byte == FILLING_BYTE)
}

// Whether the first `count` words are equal to `word`, and no others are.
pub fn words_are(work: &[u32; WORK_WORDS], count: usize, word: u32) -> bool {
    work.iter()
        .enumerate()
        .all(|(i, x)| (*x == word) == (i < count))
}

// The first `size` bytes; all of them if there are not so many.
pub fn front(bytes: &[u8], size: usize) -> &[u8] {
    bytes.get(..size).unwrap_or(bytes)
}
