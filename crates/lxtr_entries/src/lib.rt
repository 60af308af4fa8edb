// Goods entries behind the value numbers: the check of an entry table, and the lookup of a query's entries. Nothing is assumed about
// image, query and table. The image is read only by operations of the library, of which only the contracts are used.
#![tactic(auto)]

mod tables; // an entry table whose version and length are right

ghost use Rattle.std.specs.Prelude.{◌≡◌, IfOk};
ghost use Rattle.lxtr_spec.specs.Answers.{number_by, answer_or};
ghost use Rattle.lxtr_entries_spec.specs.EntryTables.{entry_number, table_verdict_of};
ghost use Rattle.lxtr_entries_spec.specs.EntryLookups.{query_value, located_in, located_of, entries_of};
ghost use Rattle.lxtr_search.specs.Answers.{part_given};
ghost use Rattle.lxtr_entries.specs.Locating.{asked_refusal};

use crate::tables::EntryTable;
use lxtr_entries_spec::{Entries, EntryRefusal};
use lxtr_highest::highest;
use lxtr_search::cases::value;
use lxtr_search::lookup;

// The check of a table for an image: whether it is well-formed and has a list of entries for each value of the image; and how many
// entries it has.
pub fn check_table(image: &[u8], table: &[u8]) -> Result<u32, EntryRefusal>
    ensures { record { refusal = number_by entry_number result; entries = answer_or 0 result } ≡ table_verdict_of image.now table.now }
{
    let top = highest(image)?;
    let table = EntryTable::read(table)?;
    table.check(top)
}

// The table and the value of the query, after the tests of image and query and of the table's form.
fn ask<'a>(
    image: &[u8],
    query: &[u8],
    table: &'a [u8],
) -> Result<(EntryTable<'a>, Option<u32>), EntryRefusal>
    ensures refusal { number_by entry_number result ≡ asked_refusal image.now query.now table.now }
    ensures asked { IfOk result (λ a. (a.0 ≡ table.now) × (a.1 ≡ query_value image.now query.now)) }
{
    let case = lookup(image, query)?;
    let table = EntryTable::read(table)?;
    Ok((table, value(case)))
}

// Where the entries of the query lie in the table, if it has a value.
pub fn locate(image: &[u8], query: &[u8], table: &[u8]) -> Result<Option<Entries>, EntryRefusal>
    ensures { located_in result ≡ located_of image.now query.now table.now }
{
    let (table, value) = ask(image, query, table)?;
    match value {
        Some(v) => Ok(Some(table.locate(v)?)),
        None => Ok(None),
    }
}

// The entries of the query, as a part of the lent table; empty if it has none or has no value.
pub fn entries<'a>(image: &[u8], query: &[u8], table: &'a [u8]) -> Result<&'a [u8], EntryRefusal>
    ensures { record { refusal = number_by entry_number result; part = part_given result } ≡ entries_of image.now query.now table.now }
{
    let (table, value) = ask(image, query, table)?;
    match value {
        Some(v) => {
            let there = table.locate(v)?;
            Ok(table.part(there))
        }
        None => Ok(&[]),
    }
}
