// The key list of a text file of one word per line, in UTF-8: sorted, each word once. Nothing is assumed about the text. Any
// caller may use `key_list`; the other functions are its parts. A word is given by the position in the text where it starts.
#![tactic(auto)]

mod lines; // the lines of a text, and the word of each
mod problems; // lines that make no word
mod order; // which of two words comes first
mod table; // the words in order
mod writing; // the key list of such a table

ghost use Rattle.std.specs.Prelude.{◌≡◌};
ghost use Rattle.lxtr_command_spec.specs.WordLists.{lines_of, keys_of_text, keyed, keyed_of, keyed_in};
ghost use Rattle.lxtr_words.specs.WordTables.{LinesRight};

use crate::problems::first_problem;
use crate::table::Words;
use lxtr_command_spec::{KeyListSize, WordProblem};
use lxtr_spec::MAX_KEYS;

// Writes the key list of lines that have no problem. The array of the words' starts is made here and not in `key_list`, so that a
// text with a problem is refused before the array is cleared.
fn list_lines(text: &[u8], out: &mut [u8]) -> Result<KeyListSize, WordProblem>
    requires { LinesRight (lines_of text.now) }
    ensures { record { answer = keyed_in result; output = out.new } ≡ keyed (keys_of_text text.now) out.old }
{
    let mut starts = [0; MAX_KEYS];
    let words = Words::of_lines(text, &mut starts)?;
    words.put_list(out)
}

// Writes the key list of the words of a text, one to a line, to the front of the output: sorted, each word once. If there is a
// problem, nothing is written.
pub fn key_list(text: &[u8], out: &mut [u8]) -> Result<KeyListSize, WordProblem>
    ensures { record { answer = keyed_in result; output = out.new } ≡ keyed_of text.now out.old }
{
    if let Some(problem) = first_problem(text) {
        return Err(problem);
    }
    list_lines(text, out)
}
