// Numbers in decimal or hexadecimal digits, and bytes in two digits.
ghost use Rattle.std.specs.Prelude.{◌≡◌, ◌≤◌, ◌<◌};
ghost use Rattle.lxtr_spec.specs.Lines.{digit_of, numeral, decimal, hexadecimal};
ghost use Rattle.lxtr_command_spec.specs.Forms.{two_digits};
ghost use Rattle.lxtr_text.specs.Writing.{wrote};

use crate::line::Line;

// The most digits that a 32-bit number has, in decimal and in hexadecimal.
const DECIMAL_DIGITS: usize = 10;

const HEXADECIMAL_DIGITS: usize = 8;

// The digit of value d: 0 to 9, then A to F.
#[tactic(auto, unfolding(lxtr_spec::specs::Lines::digit_of))]
fn digit_of(d: u32) -> u8
    requires { d < 16 }
    ensures { result ≡ digit_of d }
{
    if d < 10 {
        return 0x30 + d as u8;
    }
    0x37 + d as u8
}

impl<'a> Line<'a> {
    // Writes n in a base, or only its last `digits` digits if it has more.
    #[tactic(auto, unfolding(lxtr_spec::specs::Lines::numeral), using(crate::specs::Writing::wrote_wrote, crate::specs::Writing::wrote_none))]
    fn numeral(&mut self, base: u32, digits: usize, n: u32)
        requires { (2 ≤ base) × (base ≤ 16) }
        ensures { self.new ≡ wrote self.old (numeral base digits n) }
    {
        if digits == 0 {
            return;
        }
        if n < base {
            self.push(digit_of(n));
            return;
        }
        self.numeral(base, digits - 1, n / base);
        self.push(digit_of(n % base));
    }

    #[tactic(auto, unfolding(lxtr_spec::specs::Lines::decimal))]
    pub fn decimal(&mut self, n: u32)
        ensures { self.new ≡ wrote self.old (decimal n) }
    {
        self.numeral(10, DECIMAL_DIGITS, n);
    }

    #[tactic(auto, unfolding(lxtr_spec::specs::Lines::hexadecimal))]
    pub fn hexadecimal(&mut self, n: u32)
        ensures { self.new ≡ wrote self.old (hexadecimal n) }
    {
        self.numeral(16, HEXADECIMAL_DIGITS, n);
    }

    // Writes a byte in two hexadecimal digits.
    #[tactic(auto, unfolding(lxtr_command_spec::specs::Forms::two_digits), using(crate::specs::Writing::wrote_wrote))]
    pub fn two_digits(&mut self, x: u8)
        ensures { self.new ≡ wrote self.old (two_digits x) }
    {
        self.push(digit_of(x as u32 / 16));
        self.push(digit_of(x as u32 % 16));
    }
}
