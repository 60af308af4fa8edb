// Groups of keys: the keys that pass a slot. They are next to each other in the key list, because it ascends.
ghost use Rattle.lxtr_place.specs.GroupRanges.{Indexed, Placeable};
ghost use Rattle.lxtr_place.specs.Facts.{Indexed-prop, Placeable-prop};

use lxtr_codes::guesses::Guesses;
use lxtr_codes::tables::Tables;

// What placing reads: the key list with the tables of its code map, where each key starts, and guesses of the labels' places.
#[derive(Clone, Copy)]
pub struct Plan<'a> {
    pub tables: &'a Tables<'a>,
    pub starts: &'a [u32],
    pub guesses: &'a Guesses,
}

// `count` keys. The first starts at position `at` and has value number `first`. Their first `depth` labels lead to the slot.
#[derive(Clone, Copy)]
pub struct Group {
    pub at: usize,
    pub first: usize,
    pub count: usize,
    pub depth: usize,
}

// A group of the keys of a plan.
#[derive(Clone, Copy)]
pub struct KeyGroup<'a> {
    pub plan: &'a Plan<'a>,
    pub span: Group,
    ghost placeable: { Placeable plan.now.tables.now.keys.bytes.now plan.now.tables.now.labels.now plan.now.tables.now.codes.now span } by { Placeable-prop plan.now.tables.now.keys.bytes.now plan.now.tables.now.labels.now plan.now.tables.now.codes.now span },
    ghost indexed: { Indexed plan.now.tables.now.keys.bytes.now plan.now.starts.now span } by { Indexed-prop plan.now.tables.now.keys.bytes.now plan.now.starts.now span },
}
