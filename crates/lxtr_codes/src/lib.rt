// The code map of a key list, as three tables: the labels that the keys use, in ascending order; the code of each; and their
// places in code order.
#![tactic(auto)]

pub mod tables; // the three tables of a key list, for lxtr_place and lxtr_write
mod labels; // the labels
mod counts; // how often each occurs
pub mod guesses; // a label looked up by a guess, also for lxtr_place
mod ranks; // their order and their codes
pub mod rising; // rising numbers: the labels here, and the codes of children in lxtr_place

ghost use Rattle.std.specs.Prelude.{◌≡◌, [], ◌≤◌, length};
ghost use Rattle.lxtr_spec.specs.Labels.{max_listed};
ghost use Rattle.lxtr_spec.specs.KeyLists.{pairs_of};
ghost use Rattle.lxtr_spec.specs.CodeMaps.{labels_used};
ghost use Rattle.lxtr_build_laws.specs.CodeTables.{table_size, MappedOr};
ghost use Rattle.lxtr_codes.specs.Mapping.{CodedFront};

use crate::counts::count_keys;
use crate::guesses::{Guesses, note_all};
use crate::labels::gather_labels;
use crate::ranks::{assign, rank};
use lxtr_keys::list::KeyList;
use lxtr_spec::MAX_LISTED;
use lxtr_spec::refusals::Refusal;

// The size of each table: one more than the number of labels that a code map may list, so that too many are noticed.
pub const TABLE_SIZE: usize = MAX_LISTED + 1;

// Writes the codes of the labels, and their order, by descending frequency.
fn code_labels(
    keys: &KeyList,
    labels: &[u32],
    guesses: &mut [u32],
    codes: &mut [u32],
    order: &mut [u32],
)
    requires labels_value { labels.now ≡ labels_used (pairs_of keys.now.bytes.now) [] }
    requires labels_len_bound { (length labels.now ≤ max_listed) × (length codes.old ≡ table_size) × (length order.old ≡ table_size) }
    ensures { CodedFront (pairs_of keys.now.bytes.now) labels.now codes.new order.new }
{
    let n = labels.len();
    let mut counts = [0u32; TABLE_SIZE];
    note_all(labels, guesses);
    count_keys(keys, labels, guesses, &mut counts);
    rank(&counts[..n], order);
    assign(&order[..n], codes);
}

// Fills the tables. Returns the number of labels, which is the number of places filled.
pub fn code_map(
    keys: &KeyList,
    labels: &mut [u32],
    codes: &mut [u32],
    order: &mut [u32],
) -> Result<usize, Refusal>
    requires { (length labels.old ≡ table_size) × (length codes.old ≡ table_size) × (length order.old ≡ table_size) }
    ensures mapped { MappedOr (pairs_of keys.now.bytes.now) labels.new codes.new order.new result }
    ensures sizes { (length labels.new ≡ table_size) × (length codes.new ≡ table_size) × (length order.new ≡ table_size) }
{
    let mut guesses = Guesses::new();
    let n = gather_labels(keys, labels, &mut guesses.places)?;
    code_labels(keys, &labels[..n], &mut guesses.places, codes, order);
    Ok(n)
}
