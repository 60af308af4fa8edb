// The refusals, each with document 01's number and sentence.
ghost use Rattle.std.specs.Prelude.{◌≡◌, ℕ};
ghost use Rattle.lxtr_spec.specs.Answers.{number};

#[derive(Clone, Copy, Debug, PartialEq, Eq)]
pub enum Refusal {
    // Of an image, in this order.
    ImageTooShort = 1, // fewer than 24 bytes
    NotLxtr = 2, // first four bytes differ from `LXTR`
    WrongVersion = 3, // version is not 3
    ReservedSet = 4, // a reserved byte is not 0
    WrongSizes = 5, // N outside 2 to 65,536, or E above N-2
    WrongImageLength = 6, // length differs from the sum
    WrongMap = 7, // M below 5, map version not 1, L above 4,095, or M not 5+4L
    WrongOffsetEnds = 8, // first offset not 0 or last not E
    WrongLabels = 9, // a listed label is no scalar value or is listed twice
    WrongSlots = 10, // a slot is wrong
    WrongLists = 11, // a children list is wrong
    Unreachable = 12, // some used slot from 2 up doesn't reach slot 1 by LENGTH_COUNT or fewer steps to the parent
    // Of a query, and of the room for completions.
    WrongQueryLength = 13, // the query length is no multiple of four
    RoomTooSmall = 14, // room below 5 bytes
    // Of a key list.
    ListMalformed = 15, // under 5 bytes, version not 1, no length byte, labels cut short, or bytes left over
    TooManyKeys = 16, // count above 32,768
    KeyTooLong = 17, // length above MAX_LABELS
    NotScalar = 18, // a label no scalar
    KeysNotAscending = 19, // not above the key before
    // Of building.
    TooManyLabels = 20, // more than 4,095 distinct labels
    WorkTooSmall = 21, // W below 4
    TooFewSlots = 22, // at some slot no base fits
    OutTooSmall = 23, // output shorter than the image
}

// An error that documents 01 and 02 number.
pub trait Numbered {
    ghost numbered: { Self → ℕ };

    fn number(self) -> u8
        ensures { result ≡ numbered self };
}

impl Numbered for Refusal {
    ghost numbered = { number };

    fn number(self) -> u8 {
        self as u8
    }
}
