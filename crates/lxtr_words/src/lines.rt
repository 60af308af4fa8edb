// The lines of a text, and the word of each. A line is given by the position where it starts.
ghost use Rattle.std.specs.Prelude.{◌≡◌, ◌==◌, ◌≤◌, drop, length};
ghost use Rattle.std.specs.List.{position};
ghost use Rattle.lxtr_command_spec.specs.WordLists.{line_feed, word_of};
ghost use Rattle.lxtr_words.specs.TextLines.{line_at, word_at, LineTo};

const LINE_FEED: u8 = b'\n';

const CARRIAGE_RETURN: &[u8] = b"\r";

// The place of the first line feed.
fn line_feed(rest: &[u8]) -> Option<usize>
    ensures { result ≡ position (λ b. b == line_feed) rest.now }
{
    rest.iter().position(|b| *b == LINE_FEED)
}

// The text from `at` on; past its end it is empty.
#[tactic(auto, using(crate::specs::TextLines::rest_past))]
fn rest_at(text: &[u8], at: usize) -> &[u8]
    ensures { result.now ≡ drop at text.now }
{
    text.get(at..).unwrap_or(&[])
}

// The line that starts at `at`: up to the first line feed, or to the end of the text.
pub(crate) fn line_at(text: &[u8], at: usize) -> &[u8]
    ensures { result.now ≡ line_at text.now at }
{
    let rest = rest_at(text, at);
    match line_feed(rest) {
        Some(n) => &rest[..n],
        None => rest,
    }
}

// Where the line ends.
pub fn line_end(text: &[u8], at: usize) -> usize
    requires { at ≤ length text.now }
    ensures { LineTo text.now at result }
{
    at + line_at(text, at).len()
}

// The word of a line: without a carriage return at its end.
pub(crate) fn word_of(line: &[u8]) -> &[u8]
    ensures { result.now ≡ word_of line.now }
{
    line.strip_suffix(CARRIAGE_RETURN).unwrap_or(line)
}

// The word of the line that starts at `at`.
pub fn word_at(text: &[u8], at: usize) -> &[u8]
    ensures { result.now ≡ word_at text.now at }
{
    word_of(line_at(text, at))
}
