// Labels as text, in UTF-8.
ghost use Rattle.std.specs.Prelude.{◌≡◌, encode_utf8};
ghost use Rattle.lxtr_command_spec.specs.Forms.{shown, quoted};
ghost use Rattle.lxtr_text.specs.Writing.{wrote};

use crate::line::Line;

impl<'a> Line<'a> {
    fn character(&mut self, c: char)
        ensures { self.new ≡ wrote self.old (encode_utf8 c) }
    {
        self.push_all(c.encode_utf8(&mut [0; 4]).as_bytes());
    }

    // Writes a label as text. U+FFFD stands for a control character, and for what is not a scalar value.
    pub fn shown(&mut self, x: u32)
        ensures { self.new ≡ wrote self.old (shown x) }
    {
        match char::from_u32(x) {
            Some(c) if !c.is_control() => self.character(c),
            _ => self.character(char::REPLACEMENT_CHARACTER),
        }
    }

    // The same for use within quotation marks: a quotation mark or a backslash gets a backslash before it.
    #[tactic(auto, unfolding(lxtr_command_spec::specs::Forms::quoted))]
    pub fn quoted(&mut self, x: u32)
        ensures { self.new ≡ wrote self.old (quoted x) }
    {
        if x == 0x22 || x == 0x5C {
            self.push_all(&[b'\\', x as u8]);
        } else {
            self.shown(x);
        }
    }
}
