// Reads whole files into lent room, and writes whole files. System errors are reported on standard error, with the reason.
#![tactic(auto)]

ghost use Rattle.std.specs.Prelude.{◌≤◌, length, IfOk, IfSome};

use lxtr_bytes::heads::HEAD_LENGTH;
use lxtr_messages::{Sentence, printed, say, tell};
use lxtr_output::STANDARD_ERROR;
use lxtr_spec::{MAX_LISTED, MAX_SLOTS};
use lxtr_text::Line;
use std::env::{Env, FillError};
use std::fs;
use std::fs::File;
use std::io::{Error, Read, Write};

// The size of the largest image: header, nodes, offsets, a child for each slot from 2 up, and code map. No larger file is read or
// written.
pub const LARGEST_FILE: usize = 24
    + 8 * MAX_SLOTS
    + 4 * (MAX_SLOTS + 1)
    + 4 * (MAX_SLOTS - 2)
    + (HEAD_LENGTH + 4 * MAX_LISTED);

// Room for a file and one byte more, so that a larger file is noticed. It is lent as an array, so that no proof has to count its
// elements.
pub const FILE_ROOM: usize = LARGEST_FILE + 1;

// The system's numbers of three errors: no such argument, a name that is too long, and bytes that are not UTF-8.
const INVALID: i32 = 22;

const NAME_TOO_LONG: i32 = 36;

const NOT_TEXT: i32 = 84;

// A reason without the number of the system's error, which follows in brackets.
fn without_number(reason: &[u8]) -> &[u8] {
    match reason.iter().position(|c| *c == b'(') {
        Some(at) => reason.get(..at.saturating_sub(1)).unwrap_or(reason),
        None => reason,
    }
}

// Prints the reason of a system error.
fn print_reason(rt: &HostRuntime, error: Error) {
    if let Ok(text) = format!(in rt.alloc(); "{error}") {
        io::write_all(STANDARD_ERROR, without_number(text.as_str().as_bytes()));
    }
}

// Reports what failed, with the system's reason.
fn fail(rt: &HostRuntime, what: &[u8], error: Error) {
    io::write_all(STANDARD_ERROR, what);
    io::write_all(STANDARD_ERROR, b": ");
    print_reason(rt, error);
    io::write_all(STANDARD_ERROR, b"\n");
    say(Sentence::Failed);
}

// Reads a file to its end. Answers how many bytes it has, or none if it is larger than the room.
fn read_all(file: &mut File, room: &mut [u8; FILE_ROOM]) -> Result<Option<usize>, Error>
    ensures { IfOk result (λ read. IfSome read (λ n. n ≤ length room.new)) }
{
    let mut size: usize = 0;
    // No count: a read of no bytes is the end of the file.
    while size < FILE_ROOM {
        match file.read(&mut room[size..])? {
            0 => return Ok(Some(size)),
            count => size += count,
        }
    }
    Ok(None)
}

// The bytes of an argument, put at the front of `path`; a missing one is an error.
fn argument_length(rt: &HostRuntime, argument: usize, path: &mut [u8]) -> Result<usize, Error>
    ensures { IfOk result (λ n. n ≤ length path.new) }
{
    match rt.arg(argument, path) {
        Ok(length) => Ok(length),
        Err(FillError::TooLong) => Err(Error::from_raw_os_error(NAME_TOO_LONG)),
        Err(FillError::NotPresent) => Err(Error::from_raw_os_error(INVALID)),
    }
}

// A file name as text.
fn as_text<'a>(path: &'a [u8]) -> Result<&'a str, Error> {
    match str::from_utf8(path) {
        Ok(text) => Ok(text),
        Err(_) => Err(Error::from_raw_os_error(NOT_TEXT)),
    }
}

// Reads the file of that name. Answers what `read_all` answers.
fn read_named(
    rt: &HostRuntime,
    path: &[u8],
    room: &mut [u8; FILE_ROOM],
) -> Result<Option<usize>, Error>
    ensures { IfOk result (λ read. IfSome read (λ n. n ≤ length room.new)) }
{
    read_all(&mut File::open(rt, as_text(path)?)?, room)
}

// Reads the file of that name, or reports why not: it is too large or cannot be read.
fn load_named(rt: &HostRuntime, path: &[u8], room: &mut [u8; FILE_ROOM]) -> Option<usize>
    ensures { IfSome result (λ n. n ≤ length room.new) }
{
    match read_named(rt, path, room) {
        Ok(Some(size)) => return Some(size),
        Ok(None) => {
            tell(Sentence::LargeFile, &[printed(LARGEST_FILE)]);
            say(Sentence::Refused);
        }
        Err(error) => fail(rt, path, error),
    }
    None
}

// Reads the file that an argument names. Answers how many bytes it has; if it was not read, that is reported.
pub fn load(rt: &HostRuntime, argument: usize, room: &mut [u8; FILE_ROOM]) -> Option<usize>
    ensures { IfSome result (λ n. n ≤ length room.new) }
{
    let mut path = io::buffer();
    match argument_length(rt, argument, &mut path) {
        Ok(length) => load_named(rt, &path[..length], room),
        Err(error) => {
            fail(rt, b"file name", error);
            None
        }
    }
}

// Writes bytes to a file, through to the disk.
fn write_through(file: &mut File, bytes: &[u8]) -> Result<(), Error> {
    file.write_all(bytes)?;
    file.sync_all()
}

// Removes a file, if that can be done.
fn remove(rt: &HostRuntime, path: &[u8]) {
    if let Ok(name) = as_text(path) {
        let _ = fs::remove_file(rt, name);
    }
}

// Creates a file, and writes it through to the disk. If the writing fails, the file is removed.
fn write_new(rt: &HostRuntime, path: &[u8], bytes: &[u8]) -> Result<(), Error> {
    let mut file = File::create_new(rt, as_text(path)?)?;
    let written = write_through(&mut file, bytes);
    if written.is_err() {
        remove(rt, path);
    }
    written
}

fn rename(rt: &HostRuntime, from: &[u8], to: &[u8]) -> Result<(), Error> {
    fs::rename(rt, as_text(from)?, as_text(to)?)
}

// Writes the file of the first name, and then gives it the second; so a failure leaves the old file of that name as it was. Reports a
// failure. Answers whether the file was written.
fn replace_by(rt: &HostRuntime, new: &[u8], path: &[u8], bytes: &[u8]) -> bool {
    if let Err(error) = write_new(rt, new, bytes) {
        fail(rt, new, error);
        return false;
    }
    if let Err(error) = rename(rt, new, path) {
        fail(rt, path, error);
        remove(rt, new);
        return false;
    }
    true
}

// Writes the file of that name, by way of NAME.new.
fn replace(rt: &HostRuntime, path: &[u8], bytes: &[u8]) -> bool {
    let mut room = io::buffer();
    let mut name = Line::new(&mut room);
    name.push_all(path);
    name.push_all(b".new");
    replace_by(rt, name.as_slice(), path, bytes)
}

// Writes the file that an argument names. Returns whether it was written.
pub fn save(rt: &HostRuntime, argument: usize, bytes: &[u8]) -> bool {
    let mut path = io::buffer();
    match argument_length(rt, argument, &mut path) {
        Ok(length) => replace(rt, &path[..length], bytes),
        Err(error) => {
            fail(rt, b"file name", error);
            false
        }
    }
}
