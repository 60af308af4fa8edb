// Searches LXTR images: lookup, prefixes and longest match, for any bytes as image and query. The searches walk every image that
// passes refusals 1 to 8, whether or not the check would accept it. Any caller may use them, and `value` and `has_longer`
// of `cases`; the rest of `cases`, and `matches`, are for the crates that use this one.
#![tactic(auto)]

pub mod cases; // the four cases of a lookup
pub mod matches; // the prefixes of a query that have a value

ghost use Rattle.std.specs.Prelude.{◌≡◌};
ghost use Rattle.lxtr_spec.specs.Answers.{refusal_of, answer_or};
ghost use Rattle.lxtr_spec.specs.Searches.{lookup_of, prefixes_of, longest_of};
ghost use Rattle.lxtr_spec.specs.declared.Case.TheVariants.{Neither};
ghost use Rattle.lxtr_search.specs.Answers.{prefixes_given, part_given};

use crate::cases::case_at;
use crate::matches::{Matches, Prefixes, put_prefixes};
use lxtr_spec::Case;
use lxtr_spec::refusals::Refusal;
use lxtr_walk::{open, walk_within};

// Lookup: whether the query is a key, with its value, and whether longer keys begin with it.
pub fn lookup(image: &[u8], query: &[u8]) -> Result<Case, Refusal>
    ensures { record { refusal = refusal_of result; case = answer_or Neither result } ≡ lookup_of image.now query.now }
{
    let opened = open(image, query)?;
    let slot = walk_within(&opened, query);
    Ok(case_at(&opened, slot))
}

// Prefixes: length and value of each prefix of the query that has a value, shortest first. Only the first MAX_LABELS labels count.
pub fn prefixes(image: &[u8], query: &[u8]) -> Result<Prefixes, Refusal>
    ensures { prefixes_given result ≡ prefixes_of image.now query.now }
{
    let mut found = Prefixes::new();
    put_prefixes(image, query, &mut found)?;
    Ok(found)
}

// Longest: the longest prefix that `prefixes` reports, as the front part of the lent query; empty if there is none.
pub fn longest<'a>(image: &[u8], query: &'a [u8]) -> Result<&'a [u8], Refusal>
    ensures { record { refusal = refusal_of result; part = part_given result } ≡ longest_of image.now query.now }
{
    let mut length: u32 = 0;
    for m in Matches::of(open(image, query)?, query) {
        length = m.length;
    }
    let end = 4 * length as usize;
    Ok(&query[..end])
}
