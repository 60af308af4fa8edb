// Writes the key list of a table of words: a version byte 1, a count in four bytes, then per key a length byte and its labels,
// four bytes each, big-endian.
ghost use Rattle.std.specs.Prelude.{◌≡◌, ◌∷◌, ◌+◌, ◌*◌, ◌^◌, ◌≤◌, ◌<◌, length};
ghost use Rattle.lxtr_spec.specs.Numbers.{be_words};
ghost use Rattle.lxtr_spec.specs.Samples.{key_records, key_list};
ghost use Rattle.lxtr_laws.specs.Overlays.{over};
ghost use Rattle.lxtr_command_spec.specs.WordLists.{keyed, keyed_in};
ghost use Rattle.lxtr_words.specs.WordTables.{key_of, WordRight, right_prop};
ghost use Rattle.lxtr_words.specs.Tables.{keys_in};

use crate::lines::word_at;
use crate::table::Words;
use lxtr_bytes::heads::{HEAD_LENGTH, put_head};
use lxtr_command_spec::{KeyListSize, WordProblem};
use lxtr_utf8::{count_labels, decode};

// The word at `start` of a text. It has no problem.
#[derive(Clone, Copy)]
struct Word<'t> {
    text: &'t [u8],
    start: usize,
    ghost right: { WordRight text.now start } by { right_prop text.now start },
}

impl Word<'_> {
    // How many labels it has.
    fn label_count(&self) -> usize
        ensures { (result ≡ length (key_of self.now.text.now self.now.start)) × (result < 2 ^ 8) }
    {
        count_labels(word_at(self.text, self.start)).unwrap_or(0)
    }

    // Writes its labels at position `at` of the output. Returns how many there are.
    fn put_labels(&self, out: &mut [u8], at: usize) -> usize
        requires { at + 4 * length (key_of self.now.text.now self.now.start) ≤ length out.old }
        ensures value { result ≡ length (key_of self.now.text.now self.now.start) }
        ensures out_after { out.new ≡ over out.old at (be_words (key_of self.now.text.now self.now.start)) }
    {
        decode(word_at(self.text, self.start), &mut out[at..]).unwrap_or(0)
    }

    // Writes its key at position `at` of the output. Returns the position after it.
    fn put_key(&self, out: &mut [u8], at: usize) -> usize
        requires { at + 1 + 4 * length (key_of self.now.text.now self.now.start) ≤ length out.old }
        ensures value { result ≡ at + 1 + 4 * length (key_of self.now.text.now self.now.start) }
        ensures out_after { out.new ≡ over out.old at (length (key_of self.now.text.now self.now.start) ∷ be_words (key_of self.now.text.now self.now.start)) }
    {
        let count = self.put_labels(out, at + 1);
        out[at] = count as u8;
        at + 1 + 4 * count
    }
}

impl Words<'_, '_> {
    // The length of the key list in bytes.
    fn list_length(&self) -> usize
        ensures { result ≡ length (key_list (keys_in self.now)) }
    {
        let text = self.text;
        let starts = self.starts();
        let mut total = HEAD_LENGTH;
        for start in starts {
            let word = Word {
                text,
                start: *start,
            };
            total += 1 + 4 * word.label_count();
        }
        total
    }

    // Writes the keys of all words, after the head.
    fn put_keys(&self, out: &mut [u8])
        requires { 5 + length (key_records (keys_in self.now)) ≤ length out.old }
        ensures { out.new ≡ over out.old 5 (key_records (keys_in self.now)) }
    {
        let text = self.text;
        let starts = self.starts();
        let mut at = HEAD_LENGTH;
        for start in starts {
            let word = Word {
                text,
                start: *start,
            };
            at = word.put_key(out, at);
        }
    }

    // Writes the key list to the front of the output, if it fits.
    pub fn put_list(&self, out: &mut [u8]) -> Result<KeyListSize, WordProblem>
        ensures { record { answer = keyed_in result; output = out.new } ≡ keyed (keys_in self.now) out.old }
    {
        let count = self.starts().len();
        let length = self.list_length();
        if out.len() < length {
            return Err(WordProblem::NoRoom);
        }
        put_head(out, 0, count as u32);
        self.put_keys(out);
        Ok(KeyListSize { count, length })
    }
}
