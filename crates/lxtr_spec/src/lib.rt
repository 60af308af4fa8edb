// The refusals, the answer types and the limits. Their meaning is defined in specs/, which holds document 01, with requests 2, 3, 5 and
// 6 of document 02, as definitions. An operation that may refuse answers a Result: the number of each refusal is in `refusals`.
#![tactic(auto)]

pub mod refusals; // the refusals and their numbers

// The largest number of labels in a key, and the number of possible lengths that follows from it.
pub const MAX_LABELS: usize = 64;

pub const LENGTH_COUNT: usize = MAX_LABELS + 1;

// An image has MIN_SLOTS to MAX_SLOTS slots, and its code map lists at most MAX_LISTED labels.
pub const MIN_SLOTS: usize = 2;

pub const MAX_SLOTS: usize = 65536;

pub const MAX_LISTED: usize = 4095;

// A key list has at most MAX_KEYS keys. The builder tries the bases below BASE_COUNT.
pub const MAX_KEYS: usize = 32768;

pub const BASE_COUNT: usize = 65536;

// A typing position counts at most MAX_TYPED labels.
pub const MAX_TYPED: u16 = 255;

// Where a fault lies: the first place at which the rule of refusal 9, 10, 11 or 12 does not hold.
#[derive(Clone, Copy, Debug, PartialEq, Eq)]
pub enum Fault {
    // 9: the label's place in the code map, from 0
    Label(u32),
    // 10: the slot
    Slot(u32),
    // 11: the slot whose list ends before it begins: its offset is above the next one
    Offset(u32),
    // 11: the slot whose list has the wrong entry, and the entry's place in the children array
    Entry(u32, u32),
    // 11: a used slot from 2 up that is in no list
    Unlisted(u32),
    // 11: a used slot from 2 up that is no leaf and has no child
    Childless(u32),
    // 11: slot 1 has no child, and its base is not 0
    RootBase,
    // 12: the slot
    Unreachable(u32),
}

// What a query is to the keys: the four cases of a lookup.
#[derive(Clone, Copy, Debug, PartialEq, Eq)]
pub enum Case {
    // nothing: neither a key nor the beginning of one
    Neither,
    // prefix: no key, but longer keys begin with it
    PrefixOnly,
    // exact: a key, with this value, and no longer key begins with it
    ExactOnly(u32),
    // exact and prefix: a key, with this value, and longer keys begin with it
    ExactAndPrefix(u32),
}

// A prefix of a query that is a key: its length in labels, and its value.
#[derive(Clone, Copy, Debug, PartialEq, Eq)]
pub struct Match {
    pub length: u32,
    pub value: u32,
}

// Why a query is found or not. A place counts the labels of the query from 0: it is the first at which the walk stops.
#[derive(Clone, Copy, Debug, PartialEq, Eq)]
pub enum Reason {
    // it has a value
    IsFound,
    // a label that isn't listed, at this place
    NotListed(u32),
    // a listed label with no step, at this place
    NoStep(u32),
    // all labels walked, but no key ends there
    NoKeyEnds,
    // more than MAX_LABELS labels
    TooLong,
}

// The completions in lent room: how many were written, and whether the listing stopped for lack of room. A listing that stopped is
// an answer and no refusal: its records are in the room.
#[derive(Clone, Copy, Debug, PartialEq, Eq)]
pub struct Listing {
    pub count: u32,
    pub stopped: bool,
}
