// Text written to a lent line, as much as fits: numbers, labels as characters, and forms, which are text with marks for numbers.
// Any caller may use `forms::fill`; the methods of `Line` are for the crates that use this one.
#![tactic(auto)]

pub mod line; // a line and how far it is written
mod numerals; // numbers
mod characters; // labels as text
pub mod forms; // text with marks for numbers

pub use line::Line;
use lxtr_spec::MAX_LABELS;

// Room for a filled form, or for a line with a key: its labels as text (up to 4 bytes each) and in hexadecimal (up to 9 with the
// space), and 192 bytes more.
pub const LINE_ROOM: usize = 192 + (4 + 9) * MAX_LABELS;
