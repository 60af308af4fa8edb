// The inspector's commands that check and search an image: check, exact, prefixes, longest, probe, why and complete. Each calls the
// proved operation and prints its answer. The last line is one word, for scripts.
#![tactic(auto)]

mod reasons; // why

use lxtr_bytes::heads::HEAD_LENGTH;
use lxtr_lines::{Record, Records, completion_line, key_line, prefix_line};
use lxtr_messages::{Sentence, printed, refuse, refuse_at, say, tell};
use lxtr_output::print;
use lxtr_search::cases::{has_longer, value};
use lxtr_search::lookup;
use lxtr_spec::{Listing, MAX_LABELS};
use lxtr_text::LINE_ROOM;
pub use reasons::why;

// Room for the completions of a prefix. It is lent as an array, so that no proof has to count its elements (used where it is made, the
// proof did not close).
const LISTING_ROOM: usize = 2097152;

pub fn check(image: &[u8]) {
    match lxtr_check::check(image) {
        Ok(pairs) => {
            tell(Sentence::Pairs, &[pairs]);
            say(Sentence::Accepted);
        }
        Err(refusal) => refuse_at(refusal, lxtr_fault::fault(image)),
    }
}

// Prints a word as text and as labels, unless it has more labels than a key may have.
fn print_word(query: &[u8]) {
    if query.len() <= 4 * MAX_LABELS {
        let mut line = [0u8; LINE_ROOM];
        let length = key_line(query, &mut line);
        print(&line[..length]);
    }
}

// Prints the value, or that there is none.
fn print_value(value: Option<u32>) {
    match value {
        Some(v) => tell(Sentence::Value, &[v]),
        None => say(Sentence::NoValue),
    }
}

// Prints why a query has no value. Whether longer keys exist can be told only if the check accepts the image.
fn print_absent(image: &[u8], query: &[u8], longer: bool) {
    if 4 * MAX_LABELS < query.len() {
        tell(Sentence::LongQuery, &[printed(MAX_LABELS)]);
    } else if lxtr_check::check(image).is_err() {
        say(Sentence::AbsentInRefused);
    } else if longer {
        say(Sentence::OnlyLonger);
    } else {
        say(Sentence::NoKey);
    }
}

fn end_found(is_found: bool) {
    say(if is_found {
        Sentence::Found
    } else {
        Sentence::Absent
    });
}

pub fn exact(image: &[u8], query: &[u8]) {
    match lookup(image, query) {
        Err(refusal) => refuse(refusal),
        Ok(case) => {
            print_word(query);
            print_value(value(case));
            if value(case).is_none() {
                print_absent(image, query, has_longer(case));
            }
            end_found(value(case).is_some());
        }
    }
}

// Prints the line of a prefix of `length` labels. A prefix always lies within the query; the test only makes the bound provable.
fn print_prefix(query: &[u8], length: u32, value: u32) {
    if let Some(part) = query.get(..4 * length as usize) {
        let mut line = [0u8; LINE_ROOM];
        let size = prefix_line(length, value, part, &mut line);
        print(&line[..size]);
    }
}

pub fn prefixes(image: &[u8], query: &[u8]) {
    match lxtr_search::prefixes(image, query) {
        Err(refusal) => refuse(refusal),
        Ok(prefixes) => {
            for m in prefixes.iter() {
                print_prefix(query, m.length, m.value);
            }
            end_found(prefixes.len() != 0);
        }
    }
}

// Prints the longest prefix, which is this part of the query, if it has a value.
fn print_longest(image: &[u8], part: &[u8]) {
    match lookup(image, part) {
        Err(refusal) => refuse(refusal),
        Ok(case) => {
            if let Some(v) = value(case) {
                print_prefix(part, printed(part.len() / 4), v);
            }
            end_found(value(case).is_some());
        }
    }
}

pub fn longest(image: &[u8], query: &[u8]) {
    match lxtr_search::longest(image, query) {
        Err(refusal) => refuse(refusal),
        Ok(part) => print_longest(image, part),
    }
}

pub fn probe(image: &[u8], query: &[u8]) {
    match lookup(image, query) {
        Err(refusal) => refuse(refusal),
        Ok(case) => {
            print_word(query);
            print_value(value(case));
            say(if has_longer(case) {
                Sentence::Longer
            } else {
                Sentence::NoLonger
            });
            end_found(value(case).is_some());
        }
    }
}

fn print_completion(record: Record<'_>) {
    let mut line = [0u8; LINE_ROOM];
    let length = completion_line(record, &mut line);
    print(&line[..length]);
}

pub fn complete(image: &[u8], query: &[u8]) {
    let mut room = [0u8; LISTING_ROOM];
    complete_in(image, query, &mut room);
}

// Lists the completions into the lent room, and prints them.
fn complete_in(image: &[u8], query: &[u8], room: &mut [u8; LISTING_ROOM]) {
    match lxtr_complete::complete(image, query, room) {
        Err(refusal) => refuse_at(refusal, lxtr_fault::fault(image)),
        Ok(listing) => print_listing(listing, room),
    }
}

fn print_listing(listing: Listing, room: &[u8; LISTING_ROOM]) {
    tell(Sentence::Pairs, &[listing.count]);
    for record in Records::new(room, HEAD_LENGTH).take(listing.count as usize) {
        print_completion(record);
    }
    if listing.stopped {
        say(Sentence::MoreKeys);
        say(Sentence::Stopped);
    } else if listing.count == 0 {
        say(Sentence::Absent);
    } else {
        say(Sentence::Listed);
    }
}
