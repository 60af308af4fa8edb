// The kana table: where the text of a value lies, and whether the texts of all values of an image are whole. The places of the
// first texts are kept, because to find a text by the length bytes before it takes longer the higher its value is.
ghost use Rattle.std.specs.Prelude.{◌≡◌, ◌≤◌, min, length};
ghost use Rattle.romaji_spec.specs.KanaTables.{text_end, text_at, text_bytes, text_cut, table_short};
ghost use Rattle.romaji.specs.Tables.{most_places};

use std::marker::Model;

// The most texts whose places are kept.
pub const INDEXED: usize = 512;

// How many places are kept for an image with this highest value: one for each text, and at least one. Any number in this range
// gives the same answers; with more places, texts are found sooner.
fn place_count(highest: Option<u32>) -> usize
    ensures { (1 ≤ result) × (result ≤ most_places) }
{
    highest.map_or(1, |v| (v as usize + 1).min(INDEXED))
}

// Where the text ends whose length byte is at `at`, or the table's length if the table ends before that.
#[tactic(auto, unfolding(romaji_spec::specs::KanaTables::text_end))]
fn text_end(kana: &[u8], at: usize) -> usize
    ensures { result ≡ min (text_end kana.now at) (length kana.now) }
{
    if kana.len() <= at {
        return kana.len();
    }
    (at + 1)
        .saturating_add(4 * kana[at] as usize)
        .min(kana.len())
}

// A kana table with the places of its first texts; in a contract it is the table's bytes. The places lie in an array because the
// library has no heap; it is lent, since in the table it would be copied with it.
#[derive(Drop)]
pub struct Kana<'a> {
    bytes: &'a [u8],
    places: &'a [usize],
    count: usize,
}

impl<'a> Model for Kana<'a> {
    ghost use Rattle.std.specs.Prelude.{List, ℕ};
    ghost use Rattle.romaji.specs.Tables.{Indexed};

    ghost Value = { List ℕ };

    ghost view = { λ k. k.bytes.now };

    ghost invariant = { λ k. Indexed k.bytes.now k.places.now k.count };
}

impl<'a> Kana<'a> {
    // The table for an image with this highest value. The places are put into the array.
    pub fn new(bytes: &'a [u8], highest: Option<u32>, places: &'a mut [usize; INDEXED]) -> Self
        ensures { result ≡ bytes.now }
    {
        let count = place_count(highest);
        let mut at = 0;
        for place in places[..count].iter_mut() {
            *place = at;
            at = text_end(bytes, at);
        }
        Kana {
            bytes,
            places,
            count,
        }
    }

    // Where the text of value v begins, or the table's length if the table ends before that.
    fn text_at(&self, v: u32) -> usize
        ensures { result ≡ min (text_at self.now v) (length self.now) }
    {
        let value = v as usize;
        if value < self.count {
            return self.places[value];
        }
        let last = self.count - 1;
        let mut at = self.places[last];
        for _ in last..value {
            if self.bytes.len() <= at {
                return self.bytes.len();
            }
            at = text_end(self.bytes, at);
        }
        at
    }

    // The labels of the text of value v, four bytes each.
    pub fn text(&self, v: u32) -> &'a [u8]
        ensures { result.now ≡ text_bytes self.now v }
    {
        let at = self.text_at(v);
        if self.bytes.len() <= at {
            return &self.bytes[..0];
        }
        let end = text_end(self.bytes, at);
        &self.bytes[at + 1..end]
    }

    // Whether the table ends before the text of value v is whole.
    #[tactic(auto, using(crate::specs::Tables::cut_past, crate::specs::Tables::cut_here))]
    fn text_cut(&self, v: u32) -> bool
        ensures { result ≡ text_cut self.now v }
    {
        let at = self.text_at(v);
        if self.bytes.len() <= at {
            return true;
        }
        self.bytes.len() - (at + 1) < 4 * self.bytes[at] as usize
    }

    // Whether the table ends before the text of the highest value of an image, if it has one, is whole.
    #[tactic(auto, unfolding(romaji_spec::specs::KanaTables::table_short))]
    pub fn is_short(&self, highest: Option<u32>) -> bool
        ensures { result ≡ table_short self.now highest }
    {
        match highest {
            Some(v) => self.text_cut(v),
            None => false,
        }
    }
}
