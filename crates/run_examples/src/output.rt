// What the program prints. The words of all answers are in one literal, because every literal makes the proof of its function
// longer.
use lxtr_output::{STANDARD_OUTPUT, print, text_at};
use lxtr_spec::refusals::{Numbered, Refusal};

// The words, in the order of their texts in `say`.
#[derive(Clone, Copy, Debug, PartialEq, Eq)]
pub enum Word {
    End,
    NotRead,
    Colon,
    Comma,
    Refused,
    Pairs,
    Nothing,
    Prefix,
    Exact,
    Bytes,
    Count,
    Stopped,
    Length,
    WorkZero,
    WorkLeft,
    WorkChanged,
    RestLeft,
    RestChanged,
    Open,
    Close,
    Label,
    Slot,
    Offsets,
    Child,
    Unlisted,
    Childless,
    RootBase,
    Unreachable,
    InList,
    Listed,
    ExactAndPrefix,
}

pub fn print_number(n: u64) {
    io::print_decimal(STANDARD_OUTPUT, n);
}

pub fn say(word: Word) {
    print(text_at(
        b"\n|\
          not understood|\
          : |\
          , |\
          refused |\
          pairs |\
          nothing|\
          prefix|\
          exact |\
          \x20bytes|\
          count |\
          , stopped|\
          length |\
          , work zero|\
          , work left|\
          , work changed|\
          , rest of output left|\
          , rest of output changed|\
          \x20(|\
          )|\
          , label |\
          , slot |\
          , falling offsets at slot |\
          , child |\
          , unlisted slot |\
          , childless slot |\
          , base of slot |\
          , unreachable slot |\
          \x20in the list of slot |\
          :|\
          exact and prefix |",
        word as u8,
    ));
}

pub fn say_number(word: Word, n: u64) {
    say(word);
    print_number(n);
}

// Prints the refusal, if the answer is one.
pub fn say_refusal<A: Drop>(answer: &Result<A, Refusal>) {
    if let Err(refusal) = answer {
        say_number(Word::Refused, refusal.number() as u64);
        say(Word::Comma);
    }
}

fn print_byte(byte: u8) {
    print(b" ");
    io::print_hex(STANDARD_OUTPUT, byte as u64, 2);
}

pub fn print_bytes(bytes: &[u8]) {
    for byte in bytes {
        print_byte(*byte);
    }
}
