// Reads a line of the script of `run_examples`: the name of the command, its decimal numbers, and its bytes. Bytes are written as
// hexadecimal numbers, two digits for each byte, with a space before each number. NUMBER*N means the number N times, NUMBER+N
// means N numbers, each one more than the one before.
#![tactic(auto)]

mod cursor; // what is left of a line

use crate::cursor::Cursor;
use lxtr_text::Line;

// Room for the bytes of a line, and for an image.
pub const ROOM: usize = 32768;

#[derive(Clone, Copy, Debug, PartialEq, Eq)]
pub enum Command {
    Image,
    More,
    Set,
    Cut,
    Header,
    Check,
    Lookup,
    Prefixes,
    Longest,
    Complete,
    Build,
}

impl Command {
    fn named(name: &[u8]) -> Option<Command> {
        match name {
            b"image" => Some(Command::Image),
            b"more" => Some(Command::More),
            b"set" => Some(Command::Set),
            b"cut" => Some(Command::Cut),
            b"header" => Some(Command::Header),
            b"check" => Some(Command::Check),
            b"lookup" => Some(Command::Lookup),
            b"prefixes" => Some(Command::Prefixes),
            b"longest" => Some(Command::Longest),
            b"complete" => Some(Command::Complete),
            b"build" => Some(Command::Build),
            _ => None,
        }
    }

    // How many decimal numbers follow the name.
    fn number_count(self) -> usize {
        match self {
            Command::Set | Command::Cut | Command::Complete => 1,
            Command::Build => 2,
            _ => 0,
        }
    }
}

// What a line asks: the command, its numbers, which are 0 where it has none, and how many bytes it has.
#[derive(Clone, Copy, Debug, PartialEq, Eq)]
pub struct Request {
    pub command: Command,
    pub first: usize,
    pub second: usize,
    pub size: usize,
}

// `count` numbers of `width` bytes each; each is `step` more than the one before.
#[derive(Clone, Copy, Debug, PartialEq, Eq)]
struct Series {
    first: u64,
    step: u64,
    count: u64,
    width: usize,
}

// The width in bytes of a hexadecimal number of this many digits: it has whole bytes, and not too many.
fn width_of(digits: usize) -> Option<usize> {
    if (1 < digits) & (digits <= 14) & (digits % 2 == 0) {
        return Some(digits / 2);
    }
    None
}

fn read_series(line: &mut Cursor<'_>) -> Option<Series> {
    let number = line.number(16);
    let width = width_of(number.digits)?;
    let mut series = Series {
        first: number.value,
        step: 0,
        count: 1,
        width,
    };
    let sign = line.first();
    if (sign == Some(b'*')) | (sign == Some(b'+')) {
        line.skip();
        series.step = (sign == Some(b'+')) as u64;
        series.count = line.decimal()?;
    }
    Some(series)
}

// Writes the numbers of a series, the highest byte first.
fn push_series(bytes: &mut Line<'_>, series: Series) {
    let mut number = series.first;
    for _ in 0..series.count {
        let all = number.to_be_bytes();
        if let Some(low) = all.get(8usize.saturating_sub(series.width)..) {
            bytes.push_all(low);
        }
        number = number.wrapping_add(series.step);
    }
}

// Writes the bytes that the rest of a line gives. If they fill the room, some may have been lost. Each turn reads at least two
// characters, so as many turns as there are characters are enough.
fn read_bytes(line: &mut Cursor<'_>, room: &mut [u8; ROOM]) -> Option<usize> {
    let mut bytes = Line::new(room);
    for _ in 0..line.len() {
        if line.len() == 0 {
            break;
        }
        line.skip_space();
        push_series(&mut bytes, read_series(line)?);
    }
    if bytes.len() < ROOM {
        return Some(bytes.len());
    }
    None
}

// Reads a decimal number after a space, if there is to be one.
fn read_decimal(line: &mut Cursor<'_>, is_there: bool) -> Option<usize> {
    if !is_there {
        return Some(0);
    }
    line.skip_space();
    Some(line.decimal()? as usize)
}

// Reads a line, and writes its bytes into the lent room. A malformed line, or one that names no command, is none.
pub fn read_request(line: &[u8], room: &mut [u8; ROOM]) -> Option<Request> {
    let mut rest = Cursor::new(line);
    let command = Command::named(rest.letters())?;
    let count = command.number_count();
    let first = read_decimal(&mut rest, 0 < count)?;
    let second = read_decimal(&mut rest, 1 < count)?;
    let size = read_bytes(&mut rest, room)?;
    Some(Request {
        command,
        first,
        second,
        size,
    })
}
