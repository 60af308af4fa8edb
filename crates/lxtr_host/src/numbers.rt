// The 64-bit number that an operation returns to a host program.
ghost use Rattle.std.specs.Prelude.{◌≡◌, Option, None, false};
ghost use Rattle.lxtr_spec.specs.Answers.{refusal_of, number_by, answer_or, some_answer};
ghost use Rattle.lxtr_spec.specs.HostNumbers.{host_number, value_numbered, probe_numbered, place_number, fault_numbered, reason_numbered};
ghost use Rattle.lxtr_spec.specs.declared.Case.TheVariants.{Neither};

use lxtr_spec::refusals::{Numbered, Refusal};
use lxtr_spec::{Case, Fault, Reason};

// The parts of a number: REFUSAL times the refusal, MORE and VALUE for the two marks, and KIND times the kind of a fault or the number
// of a reason.
const REFUSAL: u64 = 0x100_0000_0000;

const MORE: u64 = 0x2_0000_0000;

const VALUE: u64 = 0x1_0000_0000;

const KIND: u64 = 0x4_0000_0000;

// The number of a refusal, the two marks, and a value, a count or a length. Here and below a refusal is its number, or 0, since a
// product has refusals of its own, and the number for C takes all of them.
#[tactic(auto, using(lxtr_laws::specs::Tallies::one_at_most, crate::specs::Numbering::number_added))]
pub fn host_number(refusal: u8, more: bool, valued: bool, n: u32) -> u64
    ensures { result ≡ host_number refusal more valued n }
{
    refusal as u64 * REFUSAL + more as u64 * MORE + valued as u64 * VALUE + n as u64
}

// The number of a count or a length, or of the refusal.
pub fn count_numbered<E: Numbered>(answer: Result<u32, E>) -> u64
    ensures { result ≡ host_number (number_by E.numbered answer) false false (answer_or 0 answer) }
{
    match answer {
        Ok(n) => host_number(0, false, false, n),
        Err(refusal) => host_number(refusal.number(), false, false, 0),
    }
}

// The number of a value or none, with the mark for longer keys.
#[tactic(auto, unfolding(lxtr_spec::specs::HostNumbers::value_numbered))]
pub fn value_numbered(refusal: u8, more: bool, value: Option<u32>) -> u64
    ensures { result ≡ value_numbered refusal more value }
{
    match value {
        Some(v) => host_number(refusal, more, true, v),
        None => host_number(refusal, more, false, 0),
    }
}

// The number of an answer with a value, or with none.
pub fn found_numbered(answer: Result<Option<u32>, Refusal>) -> u64
    ensures { result ≡ value_numbered (refusal_of answer) false (answer_or None answer) }
{
    match answer {
        Ok(value) => value_numbered(0, false, value),
        Err(refusal) => value_numbered(refusal.number(), false, None),
    }
}

// The number of a lookup's answer. Mark and value are found each on its own, so that the compiler needs no jump by the case.
#[tactic(auto, unfolding(lxtr_spec::specs::HostNumbers::probe_numbered, lxtr_spec::specs::Searches::case_value, lxtr_spec::specs::Searches::case_longer))]
pub fn case_numbered(answer: Result<Case, Refusal>) -> u64
    ensures { result ≡ probe_numbered (record { refusal = refusal_of answer; case = answer_or Neither answer }) }
{
    let case = match answer {
        Ok(case) => case,
        Err(refusal) => return value_numbered(refusal.number(), false, None),
    };
    let more = matches!(case, Case::PrefixOnly | Case::ExactAndPrefix(_));
    let value = match case {
        Case::Neither | Case::PrefixOnly => None,
        Case::ExactOnly(v) | Case::ExactAndPrefix(v) => Some(v),
    };
    value_numbered(0, more, value)
}

// The number for a refusal, a kind of fault or a reason, and a place.
#[tactic(auto, unfolding(lxtr_spec::specs::HostNumbers::place_number))]
fn place_number(refusal: u8, kind: u8, place: u32) -> u64
    ensures { result ≡ place_number refusal kind place }
{
    refusal as u64 * REFUSAL + kind as u64 * KIND + place as u64
}

// The number for where a fault lies.
#[tactic(auto, unfolding(lxtr_spec::specs::HostNumbers::fault_numbered))]
pub fn fault_numbered(fault: Option<Fault>) -> u64
    ensures { result ≡ fault_numbered fault }
{
    match fault {
        None => 0,
        Some(Fault::Label(i)) => place_number(Refusal::WrongLabels.number(), 0, i),
        Some(Fault::Slot(s)) => place_number(Refusal::WrongSlots.number(), 0, s),
        Some(Fault::Offset(p)) => place_number(Refusal::WrongLists.number(), 1, p),
        Some(Fault::Entry(_, j)) => place_number(Refusal::WrongLists.number(), 2, j),
        Some(Fault::Unlisted(s)) => place_number(Refusal::WrongLists.number(), 3, s),
        Some(Fault::Childless(s)) => place_number(Refusal::WrongLists.number(), 4, s),
        Some(Fault::RootBase) => place_number(Refusal::WrongLists.number(), 5, 1),
        Some(Fault::Unreachable(s)) => place_number(Refusal::Unreachable.number(), 0, s),
    }
}

// The number of a reason, or of none, beside a refusal.
#[tactic(auto, unfolding(lxtr_spec::specs::HostNumbers::reason_numbered, lxtr_spec::specs::Reasons::reason_number, lxtr_spec::specs::Reasons::reason_place))]
pub fn reason_numbered(refusal: u8, reason: Option<Reason>) -> u64
    ensures { result ≡ reason_numbered refusal reason }
{
    match reason {
        None => place_number(refusal, 0, 0),
        Some(Reason::IsFound) => place_number(refusal, 1, 0),
        Some(Reason::NotListed(i)) => place_number(refusal, 2, i),
        Some(Reason::NoStep(i)) => place_number(refusal, 3, i),
        Some(Reason::NoKeyEnds) => place_number(refusal, 4, 0),
        Some(Reason::TooLong) => place_number(refusal, 5, 0),
    }
}

// The number for why a query is found or not.
pub fn why_numbered(answer: Result<Reason, Refusal>) -> u64
    ensures { result ≡ reason_numbered (refusal_of answer) (some_answer answer) }
{
    match answer {
        Ok(reason) => reason_numbered(0, Some(reason)),
        Err(refusal) => reason_numbered(refusal.number(), None),
    }
}
