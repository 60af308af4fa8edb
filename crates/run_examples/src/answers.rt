// The commands that ask something of the current image, or build one. A refused operation is printed with the refusal, and then as
// one that found nothing.
use crate::output::{Word, print_bytes, print_number, say, say_number, say_refusal};
use crate::rooms::{
    FILLING_BYTE, FILLING_WORD, LISTING_ROOM, OUTPUT_ROOM, WORK_WORDS, front, is_left, words_are,
};
use lxtr_messages::fault_number;
use lxtr_search::matches::Prefixes;
use lxtr_spec::refusals::{Numbered, Refusal};
use lxtr_spec::{Case, Fault, LENGTH_COUNT, Listing};

// The most bytes of an image that are printed.
const PRINTED: usize = 168;

pub fn header(image: &[u8]) {
    print_number(match lxtr_header::read(image) {
        Ok(_) => 0,
        Err(refusal) => refusal.number() as u64,
    });
}

fn fault_word(fault: Fault) -> Word {
    match fault {
        Fault::Label(_) => Word::Label,
        Fault::Slot(_) => Word::Slot,
        Fault::Offset(_) => Word::Offsets,
        Fault::Entry(_, _) => Word::Child,
        Fault::Unlisted(_) => Word::Unlisted,
        Fault::Childless(_) => Word::Childless,
        Fault::RootBase => Word::RootBase,
        Fault::Unreachable(_) => Word::Unreachable,
    }
}

fn say_fault(fault: Fault) {
    say_number(fault_word(fault), fault_number(fault) as u64);
    if let Fault::Entry(p, _) = fault {
        say_number(Word::InList, p as u64);
    }
}

// Prints the check's answer, and where the fault lies, if that is known.
pub fn check(image: &[u8]) {
    let answer = lxtr_check::check(image);
    say_refusal(&answer);
    say_number(Word::Pairs, answer.unwrap_or(0) as u64);
    if let Some(fault) = lxtr_fault::fault(image) {
        say_fault(fault);
    }
}

fn say_case(case: Case) {
    match case {
        Case::Neither => say(Word::Nothing),
        Case::PrefixOnly => say(Word::Prefix),
        Case::ExactOnly(v) => say_number(Word::Exact, v as u64),
        Case::ExactAndPrefix(v) => say_number(Word::ExactAndPrefix, v as u64),
    }
}

pub fn lookup(image: &[u8], query: &[u8]) {
    let answer = lxtr_search::lookup(image, query);
    say_refusal(&answer);
    say_case(answer.unwrap_or(Case::Neither));
}

fn say_match(length: u32, value: u32) {
    say_number(Word::Open, length as u64);
    say_number(Word::Comma, value as u64);
    say(Word::Close);
}

// Prints each place that is filled or not zero.
fn say_prefixes(found: Prefixes) {
    let (lengths, values) = (found.lengths(), found.values());
    print_number(found.len() as u64);
    for i in 0..LENGTH_COUNT {
        if (i < found.len()) | (lengths[i] != 0) | (values[i] != 0) {
            say_match(lengths[i], values[i]);
        }
    }
}

pub fn prefixes(image: &[u8], query: &[u8]) {
    let answer = lxtr_search::prefixes(image, query);
    say_refusal(&answer);
    match answer {
        Ok(found) => say_prefixes(found),
        Err(_) => print_number(0),
    }
}

pub fn longest(image: &[u8], query: &[u8]) {
    let answer = lxtr_search::longest(image, query);
    say_refusal(&answer);
    let part = answer.unwrap_or(b"");
    print_number(part.len() as u64);
    say(Word::Bytes);
    print_bytes(part);
}

// Lists the completions into the first `size` bytes of a room, and prints all of these bytes.
pub fn complete(image: &[u8], query: &[u8], size: usize) {
    if LISTING_ROOM < size {
        say(Word::NotRead);
        return;
    }
    let mut room = [FILLING_BYTE; LISTING_ROOM];
    complete_in(image, query, &mut room[..size]);
}

fn complete_in(image: &[u8], query: &[u8], room: &mut [u8]) {
    let answer = lxtr_complete::complete(image, query, room);
    say_refusal(&answer);
    let listing = answer.unwrap_or(Listing {
        count: 0,
        stopped: false,
    });
    say_number(Word::Count, listing.count as u64);
    if listing.stopped {
        say(Word::Stopped);
    }
    say(Word::Listed);
    print_bytes(room);
}

// Builds with the first `words` words of a work and the first `size` bytes of an output. Prints the front of the image.
pub fn build(keys: &[u8], words: usize, size: usize) {
    if (WORK_WORDS < words) | (OUTPUT_ROOM < size) {
        say(Word::NotRead);
        return;
    }
    let mut work = [FILLING_WORD; WORK_WORDS];
    let mut out = [FILLING_BYTE; OUTPUT_ROOM];
    let answer = build_front(keys, &mut work, words, &mut out, size);
    say_built(answer, &work, words, &out);
}

// The two tests only make the bounds provable. Lending parts of the arrays where they are made, the proof did not close.
fn build_front(
    keys: &[u8],
    work: &mut [u32],
    words: usize,
    out: &mut [u8],
    size: usize,
) -> Result<u32, Refusal> {
    match (work.get_mut(..words), out.get_mut(..size)) {
        (Some(some_work), Some(some_out)) => lxtr_build::build(keys, some_work, some_out),
        _ => Err(Refusal::WorkTooSmall),
    }
}

fn say_built(
    answer: Result<u32, Refusal>,
    work: &[u32; WORK_WORDS],
    words: usize,
    out: &[u8; OUTPUT_ROOM],
) {
    say_refusal(&answer);
    let length = answer.unwrap_or(0) as usize;
    say_number(Word::Length, length as u64);
    say(work_word(work, words));
    say(rest_word(out, length));
    print_bytes(front(out, length.min(PRINTED)));
}

fn work_word(work: &[u32; WORK_WORDS], words: usize) -> Word {
    if words_are(work, words, 0) {
        Word::WorkZero
    } else if words_are(work, WORK_WORDS, FILLING_WORD) {
        Word::WorkLeft
    } else {
        Word::WorkChanged
    }
}

// The word for whether the output is as it was, starting at position `from`.
fn rest_word(out: &[u8; OUTPUT_ROOM], from: usize) -> Word {
    if is_left(out, from) {
        Word::RestLeft
    } else {
        Word::RestChanged
    }
}
