// The functions for programs in C and Rust: each operation under a plain name, with slices passed as pointer and length, and one
// 64-bit number as the answer. `include/lxtr.h` declares them and says what each number means.
#![tactic(auto)]

ghost use Rattle.std.specs.Prelude.{◌≡◌, None, false, ◌%◌, ◌^◌};
ghost use Rattle.lxtr_spec.specs.Refusals.{unless_refused};
ghost use Rattle.lxtr_spec.specs.Answers.{refusal_of, number_by, answer_or};
ghost use Rattle.lxtr_spec.specs.HostNumbers.{host_number, at_front, value_numbered, check_number, fault_number, highest_number, exact_number, probe_number, longest_number, why_number, host_prefixes_of, host_fresh, host_push_of, host_back_of, position_probe_number, host_completion_of, host_build_of};
ghost use Rattle.lxtr_entries_spec.specs.HostEntries.{table_number, host_entries_of};
ghost use Rattle.romaji_spec.specs.Typing.{typing_number};
ghost use Rattle.romaji_spec.specs.HostStates.{state_bytes, host_type_of, host_finish_of};

use lxtr_build::build;
use lxtr_check::check;
use lxtr_complete::complete;
use lxtr_entries::{check_table, locate};
use lxtr_fault::fault;
use lxtr_highest::highest;
use lxtr_host::numbers::{
    case_numbered, count_numbered, fault_numbered, found_numbered, host_number, why_numbered,
};
use lxtr_host::places::{put_first, put_places};
use lxtr_position::Position;
use lxtr_search::matches::{Prefixes, put_prefixes};
use lxtr_search::{longest, lookup};
use lxtr_spec::refusals::{Numbered, Refusal};
use lxtr_walk::{open, value_at, walk_within};
use lxtr_why::why;
use romaji::states::{put_state, read_state};
use romaji::{finish, type_bytes};
use romaji_spec::{State, TypingRefusal};

// The check: the number of pairs.
#[unsafe(no_mangle)]
pub extern "C" fn lxtr_check(image: &[u8]) -> u64
    ensures { result ≡ check_number image.now }
{
    count_numbered(check(image))
}

// Where the fault lies, for refusals 9 to 12.
#[unsafe(no_mangle)]
pub extern "C" fn lxtr_fault(image: &[u8]) -> u64
    ensures { result ≡ fault_number image.now }
{
    fault_numbered(fault(image))
}

// The highest value of the image's set, if it has a pair.
#[unsafe(no_mangle)]
pub extern "C" fn lxtr_highest(image: &[u8]) -> u64
    ensures { result ≡ highest_number image.now }
{
    found_numbered(highest(image))
}

// The value of a lookup, if there is one. It does not call the lookup, which also reads the width of a list.
fn exact(image: &[u8], query: &[u8]) -> Result<Option<u32>, Refusal>
    ensures { value_numbered (refusal_of result) false (answer_or None result) ≡ exact_number image.now query.now }
{
    let opened = open(image, query)?;
    let Some(n) = walk_within(&opened, query) else {
        return Ok(None);
    };
    Ok(value_at(&opened, n))
}

// Exact: the value of a lookup, if there is one.
#[unsafe(no_mangle)]
pub extern "C" fn lxtr_exact(image: &[u8], query: &[u8]) -> u64
    ensures { result ≡ exact_number image.now query.now }
{
    found_numbered(exact(image, query))
}

// Probe: the value of a lookup, if there is one, and whether longer keys exist.
#[unsafe(no_mangle)]
pub extern "C" fn lxtr_probe(image: &[u8], query: &[u8]) -> u64
    ensures { result ≡ probe_number image.now query.now }
{
    case_numbered(lookup(image, query))
}

// Longest: the length of the matched front part, in labels.
#[unsafe(no_mangle)]
pub extern "C" fn lxtr_longest(image: &[u8], query: &[u8]) -> u64
    ensures { result ≡ longest_number image.now query.now }
{
    match longest(image, query) {
        Ok(part) => host_number(0, false, false, (part.len() / 4) as u32),
        Err(refusal) => host_number(refusal.number(), false, false, 0),
    }
}

// Why the query is found or not: the reason, and the place at which the walk stops.
#[unsafe(no_mangle)]
pub extern "C" fn lxtr_why(image: &[u8], query: &[u8]) -> u64
    ensures { result ≡ why_number image.now query.now }
{
    why_numbered(why(image, query))
}

// The number of a refusal, or 0 for none.
fn refusal_number(outcome: Result<(), Refusal>) -> u8
    ensures { result ≡ refusal_of outcome }
{
    match outcome {
        Ok(()) => 0,
        Err(refusal) => refusal.number(),
    }
}

// Prefixes: how many there are. Their lengths and values are put into `places` alternately, as many as fit.
#[unsafe(no_mangle)]
#[tactic(auto, using(crate::specs::PrefixWords::prefixes_refused, crate::specs::PrefixWords::prefixes_passed))]
pub extern "C" fn lxtr_prefixes(image: &[u8], query: &[u8], places: &mut [u32]) -> u64
    ensures { record { number = result; places = places.new } ≡ host_prefixes_of image.now query.now places.old }
{
    let mut found = Prefixes::new();
    let refusal = refusal_number(put_prefixes(image, query, &mut found));
    let number = host_number(refusal, false, false, found.len() as u32);
    if refusal != 0 {
        return number;
    }
    put_places(found.lengths(), found.values(), places);
    number
}

// A typing position without labels.
#[unsafe(no_mangle)]
pub extern "C" fn lxtr_position_fresh() -> u64
    ensures { result ≡ host_fresh }
{
    u64::from(Position::fresh())
}

// The position after one more label.
#[unsafe(no_mangle)]
pub extern "C" fn lxtr_position_push(image: &[u8], position: u64, label: u32) -> u64
    ensures { result ≡ host_push_of image.now position label }
{
    let before = Position::from(position);
    let moved = before.push(image, label).unwrap_or(before); // a refusal leaves it
    u64::from(moved)
}

// The position after the last label is taken back.
#[unsafe(no_mangle)]
pub extern "C" fn lxtr_position_back(image: &[u8], position: u64) -> u64
    ensures { result ≡ host_back_of image.now position }
{
    let before = Position::from(position);
    let moved = before.back(image).unwrap_or(before); // a refusal leaves it
    u64::from(moved)
}

// What the probe answers for the labels typed so far.
#[unsafe(no_mangle)]
pub extern "C" fn lxtr_position_probe(image: &[u8], position: u64) -> u64
    ensures { result ≡ position_probe_number image.now position }
{
    case_numbered(Position::from(position).lookup(image))
}

// Completions: how many records are in the room, and whether the listing stopped for lack of room.
#[unsafe(no_mangle)]
pub extern "C" fn lxtr_complete(image: &[u8], prefix: &[u8], room: &mut [u8]) -> u64
    ensures { record { number = result; room = room.new } ≡ host_completion_of image.now prefix.now room.old }
{
    match complete(image, prefix, room) {
        Ok(listing) => host_number(0, listing.stopped, false, listing.count),
        Err(refusal) => host_number(refusal.number(), false, false, 0),
    }
}

// Building: the length of the image in `out`, in bytes.
#[unsafe(no_mangle)]
pub extern "C" fn lxtr_build(keys: &[u8], work: &mut [u32], out: &mut [u8]) -> u64
    ensures { record { number = result; output = out.new; work = work.new } ≡ host_build_of keys.now work.old out.old }
{
    count_numbered(build(keys, work, out))
}

// The check of an entry table for an image: how many entries it has.
#[unsafe(no_mangle)]
pub extern "C" fn lxtr_entries_check(image: &[u8], table: &[u8]) -> u64
    ensures { result ≡ table_number image.now table.now }
{
    count_numbered(check_table(image, table))
}

// The entries of the query: how many there are. The place of the first one among the entries is put into word 0 of `first`.
#[unsafe(no_mangle)]
pub extern "C" fn lxtr_entries(image: &[u8], query: &[u8], table: &[u8], first: &mut [u32]) -> u64
    ensures { record { number = result; first = first.new } ≡ host_entries_of image.now query.now table.now first.old }
{
    match locate(image, query, table) {
        Ok(Some(entries)) => {
            put_first(entries.first, first);
            host_number(0, false, true, entries.count)
        }
        Ok(None) => {
            put_first(0, first);
            host_number(0, false, false, 0)
        }
        Err(refusal) => host_number(refusal.number(), false, false, 0),
    }
}

// The number of an answer of typing or finishing: how many labels went out, modulo 2^32. The next state is put into `bytes`; after a
// refusal they stay.
fn typing_answered(answer: Result<usize, TypingRefusal>, state: State, bytes: &mut [u8]) -> u64
    ensures value { result ≡ host_number (number_by typing_number answer) false false (answer_or 0 answer % 2 ^ 32) }
    ensures bytes_after { bytes.new ≡ unless_refused (number_by typing_number answer) (at_front (state_bytes state) bytes.old) bytes.old }
{
    match answer {
        Ok(count) => {
            put_state(state, bytes);
            host_number(0, false, false, (count % 0x1_0000_0000) as u32)
        }
        Err(refusal) => {
            // The bytes stay.
            host_number(refusal.number(), false, false, 0)
        }
    }
}

// Romaji typing: how many labels went out.
#[unsafe(no_mangle)]
pub extern "C" fn lxtr_romaji_type(
    image: &[u8],
    kana: &[u8],
    state: &mut [u8],
    typed: &[u8],
    room: &mut [u8],
) -> u64
    ensures { record { number = result; state = state.new; room = room.new } ≡ host_type_of image.now kana.now state.old typed.now room.old }
{
    let mut held = read_state(state);
    let answer = type_bytes(image, kana, &mut held, typed, room);
    typing_answered(answer, held, state)
}

// Finishing what was typed: how many labels went out.
#[unsafe(no_mangle)]
pub extern "C" fn lxtr_romaji_finish(
    image: &[u8],
    kana: &[u8],
    state: &mut [u8],
    room: &mut [u8],
) -> u64
    ensures { record { number = result; state = state.new; room = room.new } ≡ host_finish_of image.now kana.now state.old room.old }
{
    let mut held = read_state(state);
    let answer = finish(image, kana, &mut held, room);
    typing_answered(answer, held, state)
}
