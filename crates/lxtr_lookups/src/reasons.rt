// The command why: why a word is found or not. What it says of words holds of accepted images; of any other image it says where the
// walk stops.
use crate::{end_found, print_word};
use lxtr_lines::key_line;
use lxtr_messages::{Sentence, print_text, printed, refuse, say, tell};
use lxtr_output::print;
use lxtr_spec::{MAX_LABELS, Reason};
use lxtr_text::LINE_ROOM;

// The label at a place of a query, and the labels before it.
fn label_of(query: &[u8], place: u32) -> &[u8] {
    query.chunks(4).nth(place as usize).unwrap_or(b"")
}

fn labels_before(query: &[u8], place: u32) -> &[u8] {
    query.get(..4 * place as usize).unwrap_or(query)
}

// Prints the place at which the walk stops, and the label there.
fn print_place(query: &[u8], place: u32) {
    tell(Sentence::Place, &[place]);
    let mut line = [0u8; LINE_ROOM];
    let length = key_line(label_of(query, place), &mut line);
    print(&line[..length]);
}

// Of the words: some begin with the labels before the place, and none with one label more.
fn print_words(query: &[u8], place: u32) {
    let before = labels_before(query, place);
    if before.is_empty() {
        say(Sentence::NoWordBegins);
    } else {
        say(Sentence::WordsBegin);
        print_text(before);
        say(Sentence::NoneWith);
        print_text(before);
    }
    print_text(label_of(query, place));
    print(b"\n");
}

// Of the walk: from the slot that the labels before the place reach, there is no step by the label.
fn print_walk(query: &[u8], place: u32) {
    say(Sentence::NoStep);
    print_text(label_of(query, place));
    let before = labels_before(query, place);
    if before.is_empty() {
        say(Sentence::FromRoot);
    } else {
        say(Sentence::After);
        print_text(before);
    }
    print(b"\n");
}

fn print_unlisted(is_accepted: bool, query: &[u8], place: u32) {
    print_place(query, place);
    say(if is_accepted {
        Sentence::NoWordWith
    } else {
        Sentence::NotListed
    });
    print_text(label_of(query, place));
    print(b"\n");
}

fn print_no_step(is_accepted: bool, query: &[u8], place: u32) {
    print_place(query, place);
    if is_accepted {
        print_words(query, place);
    } else {
        print_walk(query, place);
    }
}

// In an accepted image longer words begin with such a text. Only the empty text may have none: in an empty dictionary.
fn no_end(is_accepted: bool, query: &[u8]) -> Sentence {
    if !is_accepted {
        Sentence::NoKeyEnds
    } else if query.is_empty() {
        Sentence::EmptyText
    } else {
        Sentence::OnlyLongerWords
    }
}

fn found(is_accepted: bool) -> Sentence {
    if is_accepted {
        Sentence::HasWord
    } else {
        Sentence::FoundInRefused
    }
}

fn print_reason(is_accepted: bool, query: &[u8], reason: Reason) {
    match reason {
        Reason::IsFound => say(found(is_accepted)),
        Reason::NotListed(place) => print_unlisted(is_accepted, query, place),
        Reason::NoStep(place) => print_no_step(is_accepted, query, place),
        Reason::NoKeyEnds => say(no_end(is_accepted, query)),
        Reason::TooLong => tell(Sentence::LongQuery, &[printed(MAX_LABELS)]),
    }
}

fn print_answer(image: &[u8], query: &[u8], reason: Reason) {
    print_word(query);
    let is_accepted = lxtr_check::check(image).is_ok();
    print_reason(is_accepted, query, reason);
    let is_found = reason == Reason::IsFound;
    if !is_found && !is_accepted {
        say(Sentence::AbsentInRefused);
    }
    end_found(is_found);
}

pub fn why(image: &[u8], query: &[u8]) {
    match lxtr_why::why(image, query) {
        Err(refusal) => refuse(refusal),
        Ok(reason) => print_answer(image, query, reason),
    }
}
