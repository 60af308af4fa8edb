// The inspector's command: checks, searches, lists, draws and builds LXTR images in files, and types with them. It calls the
// proved operations and prints their answers. The last line is one word, for scripts.
#![tactic(auto)]

mod makers; // build, keys
mod draw; // draw

ghost use Rattle.std.specs.Prelude.{◌≤◌, length, IfSome};

use crate::draw::draw;
use crate::makers::{build, keys};
use lxtr_arguments::command;
use lxtr_command_spec::Command;
use lxtr_files::{FILE_ROOM, load};
use lxtr_lookups::{check, complete, exact, longest, prefixes, probe, why};
use lxtr_messages::{Sentence, print_usage, say};
use lxtr_typing::type_text;
use lxtr_utf8::decode;
use std::env::{Env, FillError};

// Room for the labels of an argument. It has at most 4,096 bytes, and so at most 4,096 labels.
const QUERY_ROOM: usize = 16384;

// Runs the search that is asked for.
fn search(image: &[u8], asked: Command, query: &[u8]) {
    match asked {
        Command::Exact => exact(image, query),
        Command::Prefixes => prefixes(image, query),
        Command::Longest => longest(image, query),
        Command::Probe => probe(image, query),
        Command::Why => why(image, query),
        _ => complete(image, query),
    }
}

// Puts an argument at the front of `text`, and returns its length. If it does not fit, or there is none, that is said.
fn argument(rt: &HostRuntime, place: usize, text: &mut [u8]) -> Option<usize>
    ensures { IfSome result (λ n. n ≤ length text.new) }
{
    if let Ok(size) = rt.arg(place, text) {
        return Some(size);
    }
    say(Sentence::LongArgument);
    say(Sentence::Refused);
    None
}

// Searches for the word that is the third argument.
fn search_word(rt: &HostRuntime, image: &[u8], asked: Command) {
    let mut word = io::buffer();
    let Some(length) = argument(rt, 3, &mut word) else {
        return;
    };
    let mut query = [0u8; QUERY_ROOM];
    match decode(&word[..length], &mut query) {
        Ok(count) => search(image, asked, &query[..4 * count]),
        Err(_) => {
            say(Sentence::ArgumentNotUtf8);
            say(Sentence::Refused);
        }
    }
}

// Types the text that is the fourth argument.
fn type_argument(rt: &HostRuntime, image: &[u8], kana: &[u8]) {
    let mut text = io::buffer();
    if let Some(length) = argument(rt, 4, &mut text) {
        type_text(image, kana, &text[..length]);
    }
}

// Types with the kana table in the file that the third argument names.
fn type_with_table(rt: &HostRuntime, image: &[u8]) {
    let mut room = [0u8; FILE_ROOM];
    if let Some(size) = load(rt, 3, &mut room) {
        type_argument(rt, image, &room[..size]);
    }
}

// Runs a command on the contents of the file that its first operand names.
fn run_on(rt: &HostRuntime, file: &[u8], asked: Command, operands: usize) {
    match asked {
        Command::Check => check(file),
        Command::Draw => draw(file),
        Command::Build => build(rt, file),
        Command::Keys => keys(rt, file),
        Command::TypeText => type_with_table(rt, file),
        Command::Complete => {
            if operands < 2 {
                complete(file, b"");
            } else {
                search_word(rt, file, asked);
            }
        }
        _ => search_word(rt, file, asked),
    }
}

fn run_on_file(rt: &HostRuntime, asked: Command, operands: usize) {
    let mut room = [0u8; FILE_ROOM];
    if let Some(size) = load(rt, 2, &mut room) {
        run_on(rt, &room[..size], asked, operands);
    }
}

fn run(rt: &HostRuntime, asked: Command, operands: usize) {
    match asked {
        Command::Help => {
            print_usage();
            say(Sentence::Help);
        }
        Command::Unknown => {
            say(Sentence::NoCommand);
            say(Sentence::Refused);
        }
        Command::WrongOperands => {
            say(Sentence::OtherOperands);
            say(Sentence::Refused);
        }
        _ => run_on_file(rt, asked, operands),
    }
}

// How many arguments follow the names of the program and of the command.
fn operand_count(rt: &HostRuntime) -> usize {
    let mut none = [0u8; 0];
    for place in 2..usize::MAX {
        if let Err(FillError::NotPresent) = rt.arg(place, &mut none) {
            return place - 2;
        }
    }
    usize::MAX - 2
}

fn main(rt: HostRuntime) {
    let mut name = io::buffer();
    let length = rt.arg(1, &mut name).unwrap_or(0);
    let operands = operand_count(&rt);
    run(&rt, command(&name[..length], operands), operands);
}
