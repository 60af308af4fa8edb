// Forms: text in which the marks %, $ and @ stand for numbers.
ghost use Rattle.std.specs.Prelude.{◌≡◌};
ghost use Rattle.lxtr_command_spec.specs.Forms.{next_number, piece, takes, filled};
ghost use Rattle.lxtr_text.specs.Appends.{Appended};
ghost use Rattle.lxtr_text.specs.Writing.{wrote};
ghost use Rattle.lxtr_text.specs.Filling.{left_after};

use crate::line::Line;

// The next number, or 0 if none is left.
#[tactic(auto, unfolding(lxtr_command_spec::specs::Forms::next_number))]
fn next_number(numbers: &[u32]) -> u32
    ensures { result ≡ next_number numbers.now }
{
    numbers.first().copied().unwrap_or(0)
}

// Whether a byte of a form takes a number.
#[tactic(auto, unfolding(lxtr_command_spec::specs::Forms::takes))]
fn takes(mark: u8) -> bool
    ensures { result ≡ takes mark }
{
    matches!(mark, b'%' | b'$' | b'@')
}

// The numbers that are left after a byte of a form.
#[tactic(auto, using(crate::specs::Filling::none_left))]
fn left_after<'n>(mark: u8, numbers: &'n [u32]) -> &'n [u32]
    ensures { result.now ≡ left_after mark numbers.now }
{
    if takes(mark) {
        return numbers.get(1..).unwrap_or(&[]);
    }
    numbers
}

impl<'a> Line<'a> {
    // Writes what a byte of a form stands for, where `numbers` are left: % is a decimal number, $ a hexadecimal one, @ a label as
    // text for use within quotation marks; any other byte is itself.
    #[tactic(auto, unfolding(lxtr_command_spec::specs::Forms::piece))]
    fn piece(&mut self, mark: u8, numbers: &[u32])
        ensures { self.new ≡ wrote self.old (piece mark numbers.now) }
    {
        match mark {
            b'%' => self.decimal(next_number(numbers)),
            b'$' => self.hexadecimal(next_number(numbers)),
            b'@' => self.quoted(next_number(numbers)),
            _ => self.push(mark),
        }
    }

    // Writes the text of a form.
    pub fn fill(&mut self, form: &[u8], numbers: &[u32])
        ensures { self.new ≡ wrote self.old (filled form.now numbers.now) }
    {
        let mut left = numbers;
        for mark in form {
            self.piece(*mark, left);
            left = left_after(*mark, left);
        }
    }
}

// Writes the text of a form to the front of lent bytes. Returns its length.
#[tactic(auto, using(crate::specs::Writing::line_filled))]
pub fn fill(form: &[u8], numbers: &[u32], line: &mut [u8]) -> usize
    ensures { Appended line.old 0 (filled form.now numbers.now) line.new result }
{
    let mut written = Line::new(line);
    written.fill(form, numbers);
    written.len()
}
