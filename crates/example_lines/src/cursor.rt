// What is left of a line. Reading takes characters off its front.

// A number, and how many digits it is written with. A number that is too long loses its front.
#[derive(Clone, Copy, Debug, PartialEq, Eq)]
pub struct Number {
    pub value: u64,
    pub digits: usize,
}

// The numbers that have one more digit without overflow, in base 16 too.
const KEPT: u64 = 0x100_0000_0000_0000;

// The value of a digit: 0 to 9, then A to F.
fn digit_value(c: u8) -> Option<u64> {
    match c {
        b'0'..=b'9' => Some((c - b'0') as u64),
        b'A'..=b'F' => Some((c - b'A') as u64 + 10),
        _ => None,
    }
}

#[derive(Clone, Copy)]
pub struct Cursor<'a> {
    rest: &'a [u8],
}

impl<'a> Cursor<'a> {
    pub fn new(line: &'a [u8]) -> Cursor<'a> {
        Cursor { rest: line }
    }

    pub fn len(&self) -> usize {
        self.rest.len()
    }

    pub fn first(&self) -> Option<u8> {
        self.rest.first().copied()
    }

    pub fn skip(&mut self) {
        if let Some((_, rest)) = self.rest.split_first() {
            self.rest = rest;
        }
    }

    pub fn skip_space(&mut self) {
        if self.first() == Some(b' ') {
            self.skip();
        }
    }

    // The small letters at the front.
    pub fn letters(&mut self) -> &'a [u8] {
        let all = self.rest;
        let count = all
            .iter()
            .position(|c| !c.is_ascii_lowercase())
            .unwrap_or(all.len());
        match all.split_at_checked(count) {
            Some((letters, rest)) => {
                self.rest = rest;
                letters
            }
            None => all,
        }
    }

    // The number at the front.
    pub fn number(&mut self, base: u64) -> Number {
        let before = self.rest.len();
        let mut value: u64 = 0;
        // No `for`: the first byte that is no digit stays in the rest.
        while let Some((c, rest)) = self.rest.split_first() {
            let Some(digit) = digit_value(*c) else {
                break;
            };
            if base <= digit {
                break;
            }
            value = (value % KEPT).wrapping_mul(base).wrapping_add(digit);
            self.rest = rest;
        }
        Number {
            value,
            digits: before.saturating_sub(self.rest.len()),
        }
    }

    // A decimal number of at least one digit.
    pub fn decimal(&mut self) -> Option<u64> {
        let number = self.number(10);
        if number.digits == 0 {
            return None;
        }
        Some(number.value)
    }
}
