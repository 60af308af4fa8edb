// The inspector's command type: types a text with an image of romaji and its kana table, then finishes, and prints what goes out
// and what waits. The last line is one word, for scripts.
#![tactic(auto)]

use lxtr_bytes::labels::Labels;
use lxtr_lines::keys::{append_labels, append_spaced};
use lxtr_messages::{Sentence, print_text, refuse, refuse_at, say};
use lxtr_output::print;
use lxtr_spec::MAX_LABELS;
use lxtr_text::{LINE_ROOM, Line};
use romaji_spec::{MAX_KEPT, State};

// Room for what goes out: 131,072 labels. With the kana table it takes no more of the stack than what the command build lends. It is
// lent as an array, so that no proof has to count its elements.
const OUT_ROOM: usize = 524288;

// How many bytes of labels are printed at a time: those of as many labels as fit a line.
const PART_BYTES: usize = 4 * MAX_LABELS;

// The state in which nothing is kept.
fn fresh() -> State {
    State {
        count: 0,
        kept: [0u8; MAX_KEPT],
    }
}

// Prints any number of labels as text, and then in hexadecimal, with a space between.
fn print_all(labels: &[u8]) {
    for part in labels.chunks(PART_BYTES) {
        print_text(part);
    }
    print(b"\t");
    let mut is_first = true;
    for part in labels.chunks(PART_BYTES) {
        let mut room = [0u8; LINE_ROOM];
        let mut line = Line::new(&mut room);
        if is_first {
            append_spaced(&mut line, part);
        } else {
            append_labels(&mut line, Labels::of(part));
        }
        print(line.as_slice());
        is_first = false;
    }
    print(b"\n");
}

// Prints a sentence and the labels; or another sentence if there are none.
fn print_labels(some: Sentence, none: Sentence, labels: &[u8]) {
    if labels.is_empty() {
        say(none);
        return;
    }
    say(some);
    print_all(labels);
}

// The first `count` labels of a room. They always lie in it; the test only makes the bound provable.
fn first_labels(room: &[u8], count: usize) -> &[u8] {
    room.get(..count.saturating_mul(4)).unwrap_or(room)
}

// Prints what the state keeps: each byte is the label of its number.
fn print_kept(state: State) {
    let mut room = [0u8; PART_BYTES];
    let mut labels = Line::new(&mut room);
    for byte in state.kept {
        labels.push_all(&[0, 0, 0, byte]);
    }
    print_labels(
        Sentence::Waits,
        Sentence::NothingWaits,
        first_labels(labels.as_slice(), state.count as usize),
    );
}

// Finishes, and prints what goes out. There is always room for what was kept; a refusal would be printed all the same.
fn finish_in(image: &[u8], kana: &[u8], state: &mut State, room: &mut [u8; OUT_ROOM]) {
    match romaji::finish(image, kana, state, room) {
        Err(refusal) => refuse(refusal),
        Ok(count) => {
            print_labels(
                Sentence::FinishOut,
                Sentence::NothingAtFinish,
                first_labels(room, count),
            );
            say(Sentence::Typed);
        }
    }
}

// Types in the lent room, and prints what goes out and what waits; then finishes.
fn type_in(image: &[u8], kana: &[u8], text: &[u8], room: &mut [u8; OUT_ROOM]) {
    let mut state = fresh();
    match romaji::type_bytes(image, kana, &mut state, text, room) {
        Err(refusal) => refuse_at(refusal, lxtr_fault::fault(image)),
        Ok(count) => {
            print_labels(
                Sentence::Out,
                Sentence::NothingOut,
                first_labels(room, count),
            );
            print_kept(state);
            finish_in(image, kana, &mut state, room);
        }
    }
}

pub fn type_text(image: &[u8], kana: &[u8], text: &[u8]) {
    let mut room = [0u8; OUT_ROOM];
    type_in(image, kana, text, &mut room);
}
