// The answer types of the command's parts: UTF-8 text, text files of words, and arguments. Their meaning is defined in specs/.
#![tactic(auto)]

// Why a text was not decoded into labels.
#[derive(Clone, Copy, Debug, PartialEq, Eq)]
pub enum TextProblem {
    // the text is not UTF-8
    NotUtf8,
    // what is to be written is longer than the lent room
    NoRoom,
}

// Why a text file of words gave no key list. A line is the one at fault, counted from 1.
#[derive(Clone, Copy, Debug, PartialEq, Eq)]
pub enum WordProblem {
    // the line is not UTF-8
    NotUtf8(usize),
    // its word has more labels than a key may have
    LongWord(usize),
    // there are more different words than a key list may have keys
    ManyWords,
    // what is to be written is longer than the lent room
    NoRoom,
}

// The key list of a text file of words: how many keys and how many bytes it has.
#[derive(Clone, Copy, Debug, PartialEq, Eq)]
pub struct KeyListSize {
    pub count: usize,
    pub length: usize,
}

// What the command is asked to do. What it cannot do is a case too, as in the definition `command_of`.
#[derive(Clone, Copy, Debug, PartialEq, Eq)]
pub enum Command {
    Check,
    Exact,
    Prefixes,
    Longest,
    Probe,
    Why,
    Complete,
    Build,
    Keys,
    Draw,
    TypeText,
    Help,
    Unknown, // no such command
    WrongOperands, // more or fewer operands than the command takes
}
