// The commands that write files: build and keys. A file is written only once all of its contents are known.
use lxtr_command_spec::WordProblem;
use lxtr_files::{LARGEST_FILE, save};
use lxtr_messages::{Sentence, printed, refuse, say, tell};
use lxtr_spec::{MAX_KEYS, MAX_LABELS, MAX_SLOTS};

// Work for as many slots as an image may have, two words for each.
const WORK_WORDS: usize = 2 * MAX_SLOTS;

// Builds the image of a key list, and writes it to the file that the third argument names.
pub fn build(rt: &HostRuntime, keys: &[u8]) {
    let mut work = [0u32; WORK_WORDS];
    let mut out = [0u8; LARGEST_FILE];
    build_in(rt, keys, &mut work, &mut out);
}

// Turns the arrays into slices, of which a part can be lent; so no proof has to count their elements.
fn build_in(
    rt: &HostRuntime,
    keys: &[u8],
    work: &mut [u32; WORK_WORDS],
    out: &mut [u8; LARGEST_FILE],
) {
    build_into(rt, keys, work, out);
}

fn build_into(rt: &HostRuntime, keys: &[u8], work: &mut [u32], out: &mut [u8]) {
    match lxtr_build::build(keys, work, out) {
        Err(refusal) => refuse(refusal),
        Ok(length) => {
            if save(rt, 3, &out[..length as usize]) {
                tell(Sentence::Bytes, &[length]);
                say(Sentence::Written);
            }
        }
    }
}

fn print_problem(problem: WordProblem) {
    match problem {
        WordProblem::NotUtf8(line) => tell(Sentence::LineNotUtf8, &[printed(line)]),
        WordProblem::LongWord(line) => {
            tell(
                Sentence::LongWordLine,
                &[printed(line), printed(MAX_LABELS)],
            );
        }
        WordProblem::ManyWords => tell(Sentence::TooManyWords, &[printed(MAX_KEYS)]),
        WordProblem::NoRoom => tell(Sentence::LargeList, &[printed(LARGEST_FILE)]),
    }
}

// Writes the key list of the words of a text to the file that the third argument names.
pub fn keys(rt: &HostRuntime, text: &[u8]) {
    let mut out = [0u8; LARGEST_FILE];
    list_in(rt, text, &mut out);
}

// Turns the array into a slice, of which a part can be lent; so no proof has to count its elements.
fn list_in(rt: &HostRuntime, text: &[u8], out: &mut [u8; LARGEST_FILE]) {
    list_into(rt, text, out);
}

fn list_into(rt: &HostRuntime, text: &[u8], out: &mut [u8]) {
    let start = lxtr_utf8::mark_length(text);
    match lxtr_words::key_list(&text[start..], out) {
        Err(problem) => {
            print_problem(problem);
            say(Sentence::Refused);
        }
        Ok(list) => {
            if save(rt, 3, &out[..list.length]) {
                tell(Sentence::Keys, &[printed(list.count)]);
                say(Sentence::Written);
            }
        }
    }
}
