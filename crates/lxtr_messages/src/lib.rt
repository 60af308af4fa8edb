// The sentences of the inspector's command, each given by its place in a text. No contract says which sentence is printed; how
// the marks of a sentence are filled is proved in `lxtr_text`.
#![tactic(auto)]

mod refusals; // the sentence of each refusal, and of each place at fault

use lxtr_lines::keys::append_text;
use lxtr_output::{print, text_at};
use lxtr_text::{LINE_ROOM, Line};
pub use refusals::{fault_number, has_place, print_fault, print_refusal, refuse, refuse_at};

// The sentences, in the order of their texts in `tell`. Those up to `Failed` are last lines, each one word that scripts can test.
#[derive(Clone, Copy, Debug, PartialEq, Eq)]
pub enum Sentence {
    Accepted,
    Refused,
    Found,
    Absent,
    Listed,
    Stopped,
    Written,
    Help,
    Typed,
    Failed,
    Pairs,
    Value,
    NoValue,
    LongQuery,
    AbsentInRefused,
    OnlyLonger,
    NoKey,
    Longer,
    NoLonger,
    MoreKeys,
    Bytes,
    Keys,
    LineNotUtf8,
    LongWordLine,
    TooManyWords,
    LargeList,
    LongArgument,
    ArgumentNotUtf8,
    NoCommand,
    OtherOperands,
    LargeFile,
    Out,
    NothingOut,
    Waits,
    NothingWaits,
    FinishOut,
    NothingAtFinish,
    Place,
    HasWord,
    NoWordWith,
    NoWordBegins,
    WordsBegin,
    NoneWith,
    OnlyLongerWords,
    EmptyText,
    FoundInRefused,
    NotListed,
    NoStep,
    FromRoot,
    After,
    NoKeyEnds,
}

// Prints a sentence. The marks in it stand for the numbers.
pub fn tell(sentence: Sentence, numbers: &[u32]) {
    print_form(
        text_at(
            b"accepted\n|\
              refused\n|\
              found\n|\
              absent\n|\
              listed\n|\
              stopped\n|\
              written\n|\
              help\n|\
              typed\n|\
              failed\n|\
              pairs %\n|\
              value %\n|\
              value none\n|\
              no key has more than % labels\n|\
              it is not found, but the check refuses the image\n|\
              it is not a key, but longer keys begin with it\n|\
              no key begins with it\n|\
              longer keys\n|\
              longer none\n|\
              there are more, but no room for them\n|\
              bytes %\n|\
              keys %\n|\
              line %: this is not UTF-8\n|\
              line %: the word has more than % labels\n|\
              there are more than % different words\n|\
              the key list would have more than % bytes\n|\
              the word has more than 4096 bytes\n|\
              the word is not UTF-8\n|\
              there is no such command; lxtr help lists the commands\n|\
              the command takes a different number of operands; see lxtr help\n|\
              the file has more than % bytes, the size of the largest image\n|\
              goes out: |\
              nothing goes out\n|\
              waits: |\
              nothing waits\n|\
              goes out at the finish: |\
              nothing goes out at the finish\n|\
              place %: |\
              the dictionary has this word\n|\
              the dictionary has no word with |\
              no word begins with |\
              words begin with |\
              , none with |\
              it is not a word, but longer words begin with it\n|\
              the empty text is not a word\n|\
              it is found, but the check refuses the image\n|\
              the code map does not list |\
              there is no step by |\
              \x20from slot 1|\
              \x20after |\
              all labels are walked, but no key ends there\n|",
            sentence as u8,
        ),
        numbers,
    );
}

pub fn say(sentence: Sentence) {
    tell(sentence, &[]);
}

// Prints the labels that a sentence names, as text. There are at most as many as fit a line.
pub fn print_text(labels: &[u8]) {
    let mut room = [0u8; LINE_ROOM];
    let mut line = Line::new(&mut room);
    append_text(&mut line, labels);
    print(line.as_slice());
}

// Prints a last line that is none of these.
pub fn end(word: &[u8]) {
    print(word);
    print(b"\n");
}

// Prints a form with its numbers.
fn print_form(form: &[u8], numbers: &[u32]) {
    let mut room = [0u8; LINE_ROOM];
    let mut line = Line::new(&mut room);
    line.fill(form, numbers);
    print(line.as_slice());
}

// A count as a number for a sentence. No count that occurs has more than 32 bits.
pub fn printed(n: usize) -> u32 {
    u32::try_from(n).unwrap_or(u32::MAX)
}

pub fn print_usage() {
    print(
        b"lxtr check IMAGE              whether it is an image; if not, what is wrong and where\n\
          lxtr exact IMAGE WORD         the value of a word\n\
          lxtr prefixes IMAGE TEXT      the words that a text begins with\n\
          lxtr longest IMAGE TEXT       the longest of them\n\
          lxtr probe IMAGE WORD         the value of a word; whether longer words begin with it\n\
          lxtr why IMAGE WORD           why a word is missing, and at which letter\n\
          lxtr complete IMAGE [PREFIX]  the words that begin with a prefix, in code order\n\
          lxtr build KEYS IMAGE         makes the image of a key list\n\
          lxtr keys TEXT KEYS           makes a key list from a text file, one word per line\n\
          lxtr draw IMAGE               a graph for Graphviz, with the fault in red\n\
          lxtr type IMAGE KANA TEXT     the kana of a typed text, and what waits for more letters\n\
          lxtr help                     this text\n",
    );
}
