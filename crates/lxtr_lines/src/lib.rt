// The lines that the programs print, written to the front of a lent line: a word and a number, the pairs of a listing in document
// 01's form, keys with their values, and entries. The functions are for the programs and the parts of the command.
#![tactic(auto)]

pub mod keys; // the labels of a key
pub mod records; // the records of a listing

ghost use Rattle.std.specs.Prelude.{◌≡◌, ◌++◌};
ghost use Rattle.lxtr_spec.specs.Labels.{labels_of};
ghost use Rattle.lxtr_spec.specs.Lines.{number_line, pair_line};
ghost use Rattle.lxtr_command_spec.specs.Forms.{key_text, completion_line, prefix_line, bytes_text, entry_line};
ghost use Rattle.lxtr_text.specs.Appends.{Appended};
ghost use Rattle.lxtr_text.specs.Writing.{wrote};

use crate::keys::{append_key, append_labels};
use crate::records::append_record;
use lxtr_bytes::labels::Labels;
use lxtr_text::Line;
pub use records::{Record, Records, is_whole_record};

// Writes two words, one after the other. Returns how many bytes were written.
pub fn joined(first: &[u8], second: &[u8], line: &mut [u8]) -> usize
    ensures { Appended line.old 0 (first.now ++ second.now) line.new result }
{
    let mut out = Line::new(line);
    out.push_all(first);
    out.push_all(second);
    out.len()
}

// Writes a line of a word and a number. Returns its length, as the functions below do.
pub fn number_line(word: &[u8], n: u32, line: &mut [u8]) -> usize
    ensures { Appended line.old 0 (number_line word.now n) line.new result }
{
    let mut out = Line::new(line);
    out.push_all(word);
    out.push(b' ');
    out.decimal(n);
    out.push(b'\n');
    out.len()
}

// Writes the line of a record in document 01's form: the value, then the labels.
pub fn pair_line(record: Record<'_>, line: &mut [u8]) -> usize
    ensures { Appended line.old 0 (pair_line (labels_of record.entry.labels.now, record.entry.value)) line.new result }
{
    let mut out = Line::new(line);
    out.decimal(record.value);
    append_labels(&mut out, Labels::of(record.labels));
    out.push(b'\n');
    out.len()
}

// Writes the line of a record as the command prints it: value, text and labels.
#[tactic(auto, using(lxtr_text::specs::Writing::line_filled))]
pub fn completion_line(record: Record<'_>, line: &mut [u8]) -> usize
    ensures { Appended line.old 0 (completion_line (labels_of record.entry.labels.now, record.entry.value)) line.new result }
{
    let mut out = Line::new(line);
    append_record(&mut out, record);
    out.len()
}

// Writes the line of a key: text and labels.
#[tactic(auto, using(lxtr_text::specs::Writing::line_filled))]
pub fn key_line(labels: &[u8], line: &mut [u8]) -> usize
    ensures { Appended line.old 0 (key_text (labels_of labels.now)) line.new result }
{
    let mut out = Line::new(line);
    append_key(&mut out, labels);
    out.len()
}

// Writes the line of a prefix of a query: length, value, text and labels.
pub fn prefix_line(count: u32, value: u32, part: &[u8], line: &mut [u8]) -> usize
    ensures { Appended line.old 0 (prefix_line count value (labels_of part.now)) line.new result }
{
    let mut out = Line::new(line);
    out.decimal(count);
    out.push(b'\t');
    append_record(
        &mut out,
        Record {
            labels: part,
            value,
        },
    );
    out.len()
}

// Writes bytes in hexadecimal, two digits each.
fn append_bytes(line: &mut Line<'_>, bytes: &[u8])
    ensures { line.new ≡ wrote line.old (bytes_text bytes.now) }
{
    for x in bytes {
        line.two_digits(*x);
    }
}

// Writes the line of an entry: its place among the entries, and its bytes.
pub fn entry_line(place: u32, entry: &[u8], line: &mut [u8]) -> usize
    ensures { Appended line.old 0 (entry_line place entry.now) line.new result }
{
    let mut out = Line::new(line);
    out.decimal(place);
    out.push(b'\t');
    append_bytes(&mut out, entry);
    out.push(b'\n');
    out.len()
}
