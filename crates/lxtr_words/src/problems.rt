// Finds the first line that is not UTF-8, or whose word has too many labels. This is done before anything is written.
ghost use Rattle.std.specs.Prelude.{◌≡◌};
ghost use Rattle.lxtr_command_spec.specs.WordLists.{lines_of, word_problem, first_problem};
ghost use Rattle.lxtr_words.specs.Problems.{found_in, word_found};

use crate::lines::{line_at, word_of};
use lxtr_command_spec::WordProblem;
use lxtr_spec::MAX_LABELS;
use lxtr_utf8::count_labels;

// The problem of the word of a line, which is given by its number.
fn word_problem(word: &[u8], line: usize) -> Option<WordProblem>
    ensures { found_in result ≡ word_found line (word_problem word.now) }
{
    match count_labels(word) {
        Err(_) => Some(WordProblem::NotUtf8(line)),
        Ok(count) if MAX_LABELS < count => Some(WordProblem::LongWord(line)),
        Ok(_) => None,
    }
}

// The problem of the first line that has one, with the number of that line, counted from 1.
pub fn first_problem(text: &[u8]) -> Option<WordProblem>
    ensures { found_in result ≡ first_problem 1 (lines_of text.now) }
{
    let mut number: usize = 1;
    let mut at: usize = 0;
    // No `for`: a line starts where the one before it ends.
    while at <= text.len() {
        let line = line_at(text, at);
        let problem = word_problem(word_of(line), number);
        if problem.is_some() {
            return problem;
        }
        at = at + line.len() + 1;
        number += 1;
    }
    None
}
