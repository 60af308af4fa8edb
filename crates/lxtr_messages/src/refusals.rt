// The sentences of refusals, each at the place of its number in documents 01 and 02; and the sentences for places at fault.
use crate::{Sentence, print_form, printed, say};
use lxtr_output::{print, text_at};
use lxtr_spec::refusals::{Numbered, Refusal};
use lxtr_spec::{Fault, LENGTH_COUNT, MAX_KEYS, MAX_LABELS, MAX_LISTED, MAX_SLOTS};

// The limits that sentences of refusals name.
const LIMITS: [(Refusal, usize); 5] = [
    (Refusal::Unreachable, LENGTH_COUNT),
    (Refusal::TooManyKeys, MAX_KEYS),
    (Refusal::KeyTooLong, MAX_LABELS),
    (Refusal::TooManyLabels, MAX_LISTED),
    (Refusal::TooFewSlots, MAX_SLOTS),
];

// The limit that the sentence of a refusal names; 0 if it names none. Refusals of all kinds come here, so by number.
fn limit_of(number: u8) -> u32 {
    for (refusal, limit) in LIMITS {
        if refusal.number() == number {
            return printed(limit);
        }
    }
    0
}

// Prints the sentence of a refusal, without ending the line.
pub fn print_refusal<E: Numbered>(refusal: E) {
    print_numbered(refusal.number());
}

// The same by the number of the refusal. No operation gives 0 or 26 to 28, so their texts are empty.
fn print_numbered(number: u8) {
    print_form(
        text_at(
            b"|\
              refusal 1: the file has fewer than 24 bytes, too few for a header|\
              refusal 2: the file does not begin with LXTR|\
              refusal 3: the version is not 3|\
              refusal 4: a byte of the header that has to be 0 is not 0|\
              refusal 5: the header's slot count is outside 2 to 65536, or its number of children is too large|\
              refusal 6: the file is not as long as its header says|\
              refusal 7: the code map is malformed, or its length is wrong|\
              refusal 8: the offsets do not go from 0 to the number of children|\
              refusal 9: the code map lists a label that is not a character, or lists one twice|\
              refusal 10: a slot is wrong: words may be lost, or found wrongly|\
              refusal 11: a children list is wrong: completions may lack words that lookups find|\
              refusal 12: a used slot does not reach slot 1 in % or fewer steps to the parent|\
              refusal 13: the query ends in the middle of a label|\
              refusal 14: there is no room for a listing|\
              refusal 15: the file is not a key list, or is cut short or too long|\
              refusal 16: the key list has more than % keys|\
              refusal 17: a key has more than % labels|\
              refusal 18: a key has a label that is not a character|\
              refusal 19: the keys are not sorted, or one occurs twice|\
              refusal 20: the keys have more than % different labels|\
              refusal 21: the scratch memory is too small|\
              refusal 22: the keys do not fit into % slots|\
              refusal 23: there is no room for the image|\
              refusal 24: the kana table ends before the text of some value of the image is whole|\
              refusal 25: the image has the empty key, which cannot be typed|\
              |\
              |\
              |\
              refusal 29: there is no room for what goes out|",
            number,
        ),
        &[limit_of(number)],
    );
}

// Whether the fault of a refusal has a place: 9 to 12.
pub fn has_place<E: Numbered>(refusal: E) -> bool {
    number_has_place(refusal.number())
}

// The same by the number of the refusal.
fn number_has_place(number: u8) -> bool {
    (Refusal::WrongLabels.number() <= number) & (number <= Refusal::Unreachable.number())
}

// The number that the sentence of a fault names first.
pub fn fault_number(fault: Fault) -> u32 {
    match fault {
        Fault::Label(place) => place,
        Fault::Slot(s) => s,
        Fault::Offset(p) => p,
        Fault::Entry(_, j) => j,
        Fault::Unlisted(s) => s,
        Fault::Childless(s) => s,
        Fault::RootBase => 1,
        Fault::Unreachable(s) => s,
    }
}

// Prints where the fault lies, without ending the line.
pub fn print_fault(fault: Fault) {
    let n = fault_number(fault);
    match fault {
        Fault::Label(_) => print_form(b"place % of the code map", &[n]),
        Fault::Slot(_) => print_form(b"slot %", &[n]),
        Fault::Offset(_) => print_form(b"the list of slot % ends before it begins", &[n]),
        Fault::Entry(p, _) => print_form(
            b"entry % of the children, in the list of slot %",
            &[n, p],
        ),
        Fault::Unlisted(_) => print_form(b"slot % is in no list", &[n]),
        Fault::Childless(_) => print_form(b"slot % is not an end and has an empty list", &[n]),
        Fault::RootBase => print_form(b"slot % has an empty list, but its base is not 0", &[n]),
        Fault::Unreachable(_) => print_form(b"slot %", &[n]),
    }
}

// Prints a refusal, and the last line.
pub fn refuse<E: Numbered>(refusal: E) {
    refuse_at(refusal, None);
}

// The same, with a line for where the fault of an image lies, if the refusal is for a fault that has a place. An operation may
// refuse the query before it finds the image's fault, so that there is a fault is not enough.
pub fn refuse_at<E: Numbered>(refusal: E, fault: Option<Fault>) {
    let number = refusal.number();
    print_numbered(number);
    print(b"\n");
    if number_has_place(number) {
        print_fault_line(fault);
    }
    say(Sentence::Refused);
}

fn print_fault_line(fault: Option<Fault>) {
    if let Some(place) = fault {
        print_fault(place);
        print(b"\n");
    }
}
