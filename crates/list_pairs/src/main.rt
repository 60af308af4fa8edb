// The listing program: reads a key list on standard input, builds its image and prints the completions of the empty prefix, a
// line for each pair. What a line says is decided by `lxtr_lines`.
#![tactic(auto)]

use lxtr_build::build;
use lxtr_bytes::heads::HEAD_LENGTH;
use lxtr_complete::complete;
use lxtr_lines::{Record, Records, number_line, pair_line};
use lxtr_output::{STANDARD_INPUT, print};
use lxtr_spec::refusals::{Numbered, Refusal};
use lxtr_text::LINE_ROOM;

// The longest key list. One byte more is read, so that a longer input is noticed.
const INPUT_ROOM: usize = 32768;

const WORK_WORDS: usize = 16384;

const OUTPUT_ROOM: usize = 65536;

const LISTING_ROOM: usize = 65536;

// Prints a line of a word and a number.
fn print_number(word: &[u8], n: u32) {
    let mut line = [0u8; LINE_ROOM];
    let length = number_line(word, n, &mut line);
    print(&line[..length]);
}

fn print_refusal(refusal: Refusal) {
    print_number(b"refused", refusal.number() as u32);
}

fn print_pair(record: Record<'_>) {
    let mut line = [0u8; LINE_ROOM];
    let length = pair_line(record, &mut line);
    print(&line[..length]);
}

// Prints the completions of the empty prefix.
fn list_image(image: &[u8]) {
    let mut room = [0u8; LISTING_ROOM];
    match complete(image, b"", &mut room) {
        Err(refusal) => print_refusal(refusal),
        Ok(listing) => {
            print_number(b"pairs", listing.count);
            for record in Records::new(&room, HEAD_LENGTH).take(listing.count as usize) {
                print_pair(record);
            }
        }
    }
}

// Builds the image of the keys, and lists it.
fn list_keys(keys: &[u8]) {
    let mut work = [0u32; WORK_WORDS];
    let mut out = [0u8; OUTPUT_ROOM];
    match build(keys, &mut work, &mut out) {
        Err(refusal) => print_refusal(refusal),
        Ok(length) => list_image(&out[..length as usize]),
    }
}

fn main() {
    let mut input = [0u8; INPUT_ROOM + 1];
    let length = io::read_full(STANDARD_INPUT, &mut input);
    if INPUT_ROOM < length {
        print_refusal(Refusal::ListMalformed);
        return;
    }
    list_keys(&input[..length]);
}
