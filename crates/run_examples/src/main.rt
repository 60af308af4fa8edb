// Runs document 01's examples, and more cases at its limits and refusals, through the compiled operations: reads a script on
// standard input, and prints each line with its answer.
#![tactic(auto)]

mod rooms; // the arrays that are lent
mod output; // printing
mod answers; // the commands that ask

use crate::answers::{build, check, complete, header, longest, lookup, prefixes};
use crate::output::{Word, say};
use crate::rooms::{SCRIPT_ROOM, front};
use example_lines::{Command, ROOM, Request, read_request};
use lxtr_output::{STANDARD_INPUT, print};
use lxtr_text::Line;

// Writes bytes into the image, starting at position `at`, as far as they fit. Returns the position after them.
fn write_at(image: &mut [u8; ROOM], at: usize, bytes: &[u8]) -> usize {
    match image.get_mut(at..) {
        Some(rest) => {
            let mut line = Line::new(rest);
            line.push_all(bytes);
            at.saturating_add(line.len())
        }
        None => at,
    }
}

// Runs a command that has an answer.
fn answer(request: Request, image: &[u8], bytes: &[u8]) {
    say(Word::Colon);
    match request.command {
        Command::Header => header(image),
        Command::Check => check(image),
        Command::Lookup => lookup(image, bytes),
        Command::Prefixes => prefixes(image, bytes),
        Command::Longest => longest(image, bytes),
        Command::Complete => complete(image, bytes, request.first),
        Command::Build => build(bytes, request.first, request.second),
        _ => say(Word::NotRead),
    }
}

// Runs a command with the bytes of its line. Returns how many bytes the image has afterwards: `image` puts its bytes at the front,
// `more` after the end, `set` at the position given; `cut` leaves at most the number given.
fn run_request(request: Request, image: &mut [u8; ROOM], size: usize, bytes: &[u8]) -> usize {
    match request.command {
        Command::Image => return write_at(image, 0, bytes),
        Command::More => return write_at(image, size, bytes),
        Command::Set => {
            write_at(image, request.first, bytes);
        }
        Command::Cut => {
            write_at(image, 0, bytes);
            return request.first.min(size);
        }
        _ => answer(request, front(image, size), bytes),
    }
    size
}

fn run_line(line: &[u8], image: &mut [u8; ROOM], size: usize, bytes: &mut [u8; ROOM]) -> usize {
    match read_request(line, bytes) {
        Some(request) => {
            let given = front(bytes, request.size);
            run_request(request, image, size, given)
        }
        None => {
            say(Word::Colon);
            say(Word::NotRead);
            size
        }
    }
}

// Whether a line is a comment or empty.
fn is_silent(line: &[u8]) -> bool {
    line.is_empty() || line[0] == b'#'
}

// Prints each line, and runs it.
fn run_script(script: &[u8], image: &mut [u8; ROOM], bytes: &mut [u8; ROOM]) {
    let mut size: usize = 0;
    for ended in script.split_inclusive(|c| *c == b'\n') {
        let line = ended.strip_suffix(b"\n").unwrap_or(ended);
        print(line);
        if !is_silent(line) {
            size = run_line(line, image, size, bytes);
        }
        say(Word::End);
    }
}

fn main() {
    let mut script = [0u8; SCRIPT_ROOM];
    let length = io::read_full(STANDARD_INPUT, &mut script);
    let mut image = [0u8; ROOM];
    let mut bytes = [0u8; ROOM];
    run_script(&script[..length], &mut image, &mut bytes);
}
