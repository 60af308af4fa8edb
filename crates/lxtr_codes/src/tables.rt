// The code map of a key list, as three tables.
ghost use Rattle.lxtr_spec.specs.KeyLists.{pairs_of};
ghost use Rattle.lxtr_build_laws.specs.CodeTables.{CodeTables};
ghost use Rattle.lxtr_build_laws.specs.OneProof.{CodeTables-prop};

use lxtr_keys::list::KeyList;

// The key list and the tables, each as long as the code map: the labels in ascending order, the code of
// each, and their places in code order. Placing reads the first two and writing the first and the last, so they are no table of
// triples; there is no heap for a map.
#[derive(Clone, Copy)]
pub struct Tables<'a> {
    pub keys: KeyList<'a>,
    pub labels: &'a [u32],
    pub codes: &'a [u32],
    pub order: &'a [u32],
    ghost right: { CodeTables (pairs_of keys.bytes.now) labels.now codes.now order.now } by { CodeTables-prop (pairs_of keys.bytes.now) labels.now codes.now order.now },
}
