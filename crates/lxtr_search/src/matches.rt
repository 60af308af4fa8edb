// The prefixes of a query that have a value. One walk finds them all, because it passes the slot of each prefix.
ghost use Rattle.std.specs.Prelude.{◌≡◌, ◌<◌, ◌≤◌, ◌∷◌, ◌++◌, [], length};
ghost use Rattle.std.specs.Iterator.{YieldsFirst, item_count};
ghost use Rattle.lxtr_spec.specs.Answers.{refusal_of};
ghost use Rattle.lxtr_spec.specs.Labels.{length_count};
ghost use Rattle.lxtr_spec.specs.Searches.{prefixes_of};
ghost use Rattle.lxtr_search.specs.Matches.{all_matches};
ghost use Rattle.lxtr_search.specs.Places.{length_places, value_places};

use lxtr_bytes::labels::Labels;
use lxtr_image::Image;
use lxtr_spec::refusals::Refusal;
use lxtr_spec::{LENGTH_COUNT, MAX_LABELS, Match};
use lxtr_walk::{open, step_by, value_at};
use std::marker::Model;

// The matches of a query, one after the other, shortest first; in a contract they are the list of those that are left. Of `count`
// labels those are walked that are not left: a count of its own would be one number more that the walk has to keep.
#[derive(Drop)]
pub struct Matches<'a> {
    image: Image<'a>,
    first: Option<u32>,
    slot: u32,
    count: u32,
    labels: Labels<'a>,
}

impl<'a> Model for Matches<'a> {
    ghost use Rattle.std.specs.Prelude.{List, ◌-◌, ◌++◌, ◌<◌, ◌≤◌, length};
    ghost use Rattle.lxtr_spec.specs.declared.Match.{Match};
    ghost use Rattle.lxtr_spec.specs.Labels.{max_labels};
    ghost use Rattle.lxtr_spec.specs.Image.{slot_count};
    ghost use Rattle.lxtr_search.specs.Matches.{match_of, matches_after};

    ghost Value = { List Match };

    // The value of the empty prefix, if it has one and has not been given; then what the walk meets from the slot on, which the labels that
    // are not left reached.
    ghost view = { λ s. match_of 0 s.first ++ matches_after s.image s.slot (s.count - length s.labels) s.labels };

    ghost invariant = { λ s. (s.slot < slot_count s.image) × (length s.labels ≤ s.count) × (s.count ≤ max_labels) };
}

impl<'a> Iterator for Matches<'a> {
    type Item = Match;

    ghost next_gives = { YieldsFirst (λ s. s) };

    ghost remaining = { item_count (λ s. s) };

    // A step that fails returns at once, so that the next step need not wait for this one's test.
    #[inline(always)]
    fn next(&mut self) -> Option<Match> {
        if let Some(value) = self.first {
            self.first = None;
            return Some(Match { length: 0, value });
        }
        // Not a `for`: the next call goes on with the labels that are left.
        while let Some(label) = self.labels.next() {
            let Some(slot) = step_by(&self.image, self.slot, label) else {
                self.labels.clear();
                return None;
            };
            self.slot = slot;
            if let Some(value) = value_at(&self.image, slot) {
                return Some(Match {
                    length: self.count - self.labels.left() as u32,
                    value,
                });
            }
        }
        None
    }
}

impl<'a> Matches<'a> {
    // All matches of a query. Only its first MAX_LABELS labels count.
    pub fn of(image: Image<'a>, query: &'a [u8]) -> Self
        ensures value { result ≡ all_matches image.entry query.now }
        ensures limit { length result ≤ length_count }
    {
        let end = query.len().min(4 * MAX_LABELS);
        let labels = Labels::of(&query[..end]);
        let slot = image.root();
        let first = value_at(&image, slot);
        Matches {
            image,
            first,
            slot,
            count: labels.left() as u32,
            labels,
        }
    }
}

// The matches that were found; in a contract they are their list. Each of the two arrays has a place for each possible length. They are
// filled from the front, and the places that are not used are zero.
#[derive(Drop)]
pub struct Prefixes {
    count: usize,
    lengths: [u32; LENGTH_COUNT],
    values: [u32; LENGTH_COUNT],
}

impl Model for Prefixes {
    ghost use Rattle.std.specs.Prelude.{List, take};
    ghost use Rattle.lxtr_spec.specs.declared.Match.{Match};
    ghost use Rattle.lxtr_search.specs.Places.{Filled, paired};

    ghost Value = { List Match };

    ghost view = { λ s. paired (take s.count s.lengths) (take s.count s.values) };

    ghost invariant = { λ s. Filled s.count s.lengths s.values };
}

impl Prefixes {
    // No matches.
    pub fn new() -> Self
        ensures { result ≡ [] }
    {
        Prefixes {
            count: 0,
            lengths: [0; LENGTH_COUNT],
            values: [0; LENGTH_COUNT],
        }
    }

    // Appends a match.
    pub(crate) fn push(&mut self, m: Match)
        requires { length self.old < length_count }
        ensures { self.new ≡ self.old ++ m ∷ [] }
    {
        self.lengths[self.count] = m.length;
        self.values[self.count] = m.value;
        self.count += 1;
    }

    // How many matches there are.
    pub fn len(&self) -> usize
        ensures value { result ≡ length self.now }
        ensures limit { length self.now ≤ length_count }
    {
        self.count
    }

    // The lengths in all places, of which those that are not used are zero.
    pub fn lengths(&self) -> &[u32; LENGTH_COUNT]
        ensures value { result.now ≡ length_places self.now }
        ensures limit { length self.now ≤ length_count }
    {
        &self.lengths
    }

    // The values in the same places.
    pub fn values(&self) -> &[u32; LENGTH_COUNT]
        ensures value { result.now ≡ value_places self.now }
        ensures limit { length self.now ≤ length_count }
    {
        &self.values
    }

    // The matches, one after the other.
    pub fn iter(&self) -> Iter<'_>
        ensures value { result ≡ self.now }
        ensures limit { length self.now ≤ length_count }
    {
        Iter {
            lengths: &self.lengths[..self.count],
            values: &self.values[..self.count],
        }
    }
}

// The matches of a `Prefixes`, one after the other; in a contract they are the list of those that are left.
#[derive(Drop)]
pub struct Iter<'a> {
    lengths: &'a [u32],
    values: &'a [u32],
}

impl<'a> Model for Iter<'a> {
    ghost use Rattle.std.specs.Prelude.{List};
    ghost use Rattle.lxtr_spec.specs.declared.Match.{Match};
    ghost use Rattle.lxtr_search.specs.Places.{paired};

    ghost Value = { List Match };

    ghost view = { λ s. paired s.lengths.now s.values.now };
}

impl<'a> Iterator for Iter<'a> {
    type Item = Match;

    ghost next_gives = { YieldsFirst (λ s. s) };

    ghost remaining = { item_count (λ s. s) };

    fn next(&mut self) -> Option<Match> {
        let (length, lengths) = self.lengths.split_first()?;
        let (value, values) = self.values.split_first()?;
        self.lengths = lengths;
        self.values = values;
        Some(Match {
            length: *length,
            value: *value,
        })
    }
}

// What `prefixes` does, but into lent matches, so that the arrays are not copied. What they held before is gone, after a refusal too.
pub fn put_prefixes(image: &[u8], query: &[u8], found: &mut Prefixes) -> Result<(), Refusal>
    ensures { record { refusal = refusal_of result; count = length found.new; lengths = length_places found.new; values = value_places found.new } ≡ prefixes_of image.now query.now }
{
    *found = Prefixes::new();
    let opened = open(image, query)?;
    for m in Matches::of(opened, query) {
        found.push(m);
    }
    Ok(())
}
