// Goods entries: the refusals, where entries lie, and the size of an entry. Their meaning is defined in specs/, which holds request 7
// of document 02 as definitions.
#![tactic(auto)]

ghost use Rattle.std.specs.Prelude.{◌≡◌};
ghost use Rattle.lxtr_entries_spec.specs.EntryTables.{entry_number};
ghost use Rattle.lxtr_entries_spec.specs.declared.EntryRefusal.TheVariants.{Image};

use lxtr_spec::refusals::{Numbered, Refusal};

// The number of bytes of an entry, and of an offset.
pub const ENTRY_BYTES: usize = 8;

pub const OFFSET_BYTES: usize = 4;

// Where the entries of a query with a value lie: the place of the first among the entries, which is 0 if there is none, and how many
// there are.
#[derive(Clone, Copy, Debug, PartialEq, Eq)]
pub struct Entries {
    pub first: u32,
    pub count: u32,
}

// Why a table is refused, or no entries are looked up.
#[derive(Clone, Copy, Debug, PartialEq, Eq)]
pub enum EntryRefusal {
    // 1 to 13, of the image or the query
    Image(Refusal),
    // 26: malformed table or offset pair
    TableMalformed,
    // 27: value not below V
    ValueBeyond,
}

impl Numbered for EntryRefusal {
    ghost numbered = { entry_number };

    fn number(self) -> u8 {
        match self {
            EntryRefusal::Image(refusal) => refusal.number(),
            EntryRefusal::TableMalformed => 26,
            EntryRefusal::ValueBeyond => 27,
        }
    }
}

impl From<Refusal> for EntryRefusal {
    ghost from_gives = { λ r e. e ≡ Image r };

    fn from(r: Refusal) -> EntryRefusal {
        EntryRefusal::Image(r)
    }
}
