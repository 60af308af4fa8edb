// A line: lent bytes, written from the front. What does not fit is left out, so no method requires room.
ghost use Rattle.std.specs.Prelude.{◌≡◌, [], ◌∷◌, length, take};
ghost use Rattle.lxtr_text.specs.Writing.{wrote};

#[derive(Drop)]
pub struct Line<'a> {
    room: &'a mut [u8],
    end: usize, // how many bytes are written
}

impl<'a> Line<'a> {
    // A line on which nothing is written yet.
    pub fn new(room: &'a mut [u8]) -> Line<'a>
        ensures room { result.room ≡ room.entry }
        ensures end { result.end ≡ 0 }
    {
        Line { room, end: 0 }
    }

    // A line whose first `end` bytes are written already.
    pub fn after(room: &'a mut [u8], end: usize) -> Line<'a>
        ensures room { result.room ≡ room.entry }
        ensures end { result.end ≡ end }
    {
        Line { room, end }
    }

    pub fn len(&self) -> usize
        ensures { result ≡ self.now.end }
    {
        self.end
    }

    // What is written.
    pub fn as_slice(&self) -> &[u8]
        ensures { result.now ≡ take self.now.end self.now.room.now }
    {
        &self.room[..self.end.min(self.room.len())]
    }

    pub fn push(&mut self, x: u8)
        ensures { self.new ≡ wrote self.old (x ∷ []) }
    {
        if self.end < self.room.len() {
            self.room[self.end] = x;
            self.end += 1;
        }
    }

    pub fn push_all(&mut self, bytes: &[u8])
        ensures { self.new ≡ wrote self.old bytes.now }
    {
        for x in bytes {
            self.push(*x);
        }
    }
}
