// An entry table: version byte 1, V in four bytes, V + 1 offsets of four, then entries of eight bytes, big-endian.
ghost use Rattle.std.specs.Prelude.{◌≡◌, true, false, ◌+◌, ◌*◌, ◌≤◌, ◌<◌, ◌^◌, length, IfOk, MatchResult};
ghost use Rattle.lxtr_spec.specs.Ranges.{any_below};
ghost use Rattle.lxtr_spec.specs.Answers.{number_by};
ghost use Rattle.lxtr_entries_spec.specs.EntryTables.{entry_number, entry_size, value_count, table_offset, entries_at, entry_count, entry_bytes, form_wrong, falls, offsets_wrong, value_beyond};
ghost use Rattle.lxtr_entries_laws.specs.TableFacts.{offsets_refusal};
ghost use Rattle.lxtr_entries.specs.Locating.{located_pair, located_value, found_in};

use lxtr_bytes::heads::{HEAD_LENGTH, VERSION, count_at, version_at};
use lxtr_bytes::numbers::be32_at;
use lxtr_entries_spec::{ENTRY_BYTES, Entries, EntryRefusal, OFFSET_BYTES};
use std::marker::Model;

// Where the entries begin.
#[tactic(auto, unfolding(lxtr_entries_spec::specs::EntryTables::entries_at, lxtr_entries_spec::specs::EntryTables::value_count))]
fn entries_at(table: &[u8]) -> usize
    requires { 5 ≤ length table.now }
    ensures { (result ≡ entries_at table.now) × (result < 2 ^ 35) }
{
    HEAD_LENGTH + OFFSET_BYTES * (count_at(table, 0) as usize + 1)
}

// Whether version or length is wrong: not version 1, too short for the offsets, or a rest that is not of whole entries.
fn form_wrong(table: &[u8]) -> bool
    ensures { result ≡ form_wrong table.now }
{
    if table.len() < HEAD_LENGTH {
        return true;
    }
    if version_at(table, 0) != VERSION {
        return true;
    }
    let start = entries_at(table);
    if table.len() < start {
        return true;
    }
    (table.len() - start) % ENTRY_BYTES != 0
}

// A table whose version and length are right; in a contract it is its bytes.
#[derive(Drop)]
pub struct EntryTable<'a> {
    bytes: &'a [u8],
}

impl<'a> Model for EntryTable<'a> {
    ghost use Rattle.std.specs.Prelude.{◌≡◌, List, ℕ, false};
    ghost use Rattle.lxtr_entries_spec.specs.EntryTables.{form_wrong};

    ghost Value = { List ℕ };

    ghost view = { λ t. t.bytes.now };

    ghost invariant = { λ t. form_wrong t.bytes.now ≡ false };
}

impl<'a> EntryTable<'a> {
    // The table, or 26 if version or length is wrong.
    pub fn read(bytes: &'a [u8]) -> Result<Self, EntryRefusal>
        ensures { MatchResult result (λ t. (t ≡ bytes.now) × (form_wrong bytes.now ≡ false)) (λ e. (entry_number e ≡ 26) × (form_wrong bytes.now ≡ true)) }
    {
        if form_wrong(bytes) {
            return Err(EntryRefusal::TableMalformed);
        }
        Ok(EntryTable { bytes })
    }

    // V, the number of values that have a list of entries.
    #[tactic(auto, unfolding(lxtr_entries_spec::specs::EntryTables::value_count), using(lxtr_entries_laws::specs::TableFacts::has_head))]
    fn value_count(&self) -> u32
        ensures { result ≡ value_count self.now }
    {
        count_at(self.bytes, 0)
    }

    // How many entries there are.
    #[tactic(auto, unfolding(lxtr_entries_spec::specs::EntryTables::entry_count), using(lxtr_entries_laws::specs::TableFacts::has_head, lxtr_entries_laws::specs::TableFacts::entries_start))]
    fn entry_count(&self) -> usize
        ensures { result ≡ entry_count self.now }
    {
        (self.bytes.len() - entries_at(self.bytes)) / ENTRY_BYTES
    }

    // Offset i, counted from 0.
    #[tactic(auto, unfolding(lxtr_entries_spec::specs::EntryTables::table_offset), using(lxtr_entries_laws::specs::TableFacts::offset_within))]
    fn offset(&self, i: usize) -> u32
        requires { i ≤ value_count self.now }
        ensures { result ≡ table_offset self.now i }
    {
        be32_at(self.bytes, HEAD_LENGTH + OFFSET_BYTES * i)
    }

    // The last offset.
    fn last_offset(&self) -> u32
        ensures { result ≡ table_offset self.now (value_count self.now) }
    {
        self.offset(self.value_count() as usize)
    }

    // Whether some offset of a value is above the next one. Each offset is read once.
    fn some_falls(&self) -> bool
        ensures { result ≡ any_below (value_count self.now) (falls self.now) }
    {
        let mut before = self.offset(0);
        for i in 0..self.value_count() as usize {
            let next = self.offset(i + 1);
            if next < before {
                return true;
            }
            before = next;
        }
        false
    }

    // Whether the offsets do not start at 0, fall, or do not end at the number of entries.
    #[tactic(auto, unfolding(lxtr_entries_spec::specs::EntryTables::offsets_wrong))]
    fn offsets_wrong(&self) -> bool
        ensures { result ≡ offsets_wrong self.now }
    {
        (self.offset(0) != 0)
            | self.some_falls()
            | (self.last_offset() as usize != self.entry_count())
    }

    // Whether a value, if there is one, is not below V.
    #[tactic(auto, unfolding(lxtr_entries_spec::specs::EntryTables::value_beyond))]
    fn value_beyond(&self, value: Option<u32>) -> bool
        ensures { result ≡ value_beyond self.now value }
    {
        match value {
            Some(v) => self.value_count() <= v,
            None => false,
        }
    }

    // How many entries there are, or the first of refusals 26 and 27 that holds, for an image with this highest value.
    pub fn check(&self, highest: Option<u32>) -> Result<u32, EntryRefusal>
        ensures refusal { number_by entry_number result ≡ offsets_refusal self.now highest }
        ensures count { IfOk result (λ n. n ≡ entry_count self.now) }
    {
        if self.offsets_wrong() {
            return Err(EntryRefusal::TableMalformed);
        }
        if self.value_beyond(highest) {
            return Err(EntryRefusal::ValueBeyond);
        }
        Ok(self.last_offset())
    }

    // Where the entries between two offsets lie, or 26 if the pair falls or passes the entries.
    fn locate_pair(&self, from: u32, to: u32) -> Result<Entries, EntryRefusal>
        ensures { found_in result ≡ located_pair self.now from to }
    {
        if to < from {
            return Err(EntryRefusal::TableMalformed);
        }
        let end = to as usize;
        if self.entry_count() < end {
            return Err(EntryRefusal::TableMalformed);
        }
        let count = to - from;
        let first = if count == 0 { 0 } else { from };
        Ok(Entries { first, count })
    }

    // Where the entries of value v lie.
    #[tactic(auto, using(crate::specs::Locating::value_refused, crate::specs::Locating::pair_read))]
    pub fn locate(&self, v: u32) -> Result<Entries, EntryRefusal>
        ensures { found_in result ≡ located_value self.now v }
    {
        if self.value_count() <= v {
            return Err(EntryRefusal::ValueBeyond);
        }
        let i = v as usize;
        self.locate_pair(self.offset(i), self.offset(i + 1))
    }

    // The bytes of these entries.
    #[tactic(auto, unfolding(lxtr_entries_spec::specs::EntryTables::entry_bytes), using(lxtr_entries_laws::specs::TableFacts::has_head))]
    pub fn part(&self, there: Entries) -> &'a [u8]
        requires { entries_at self.now + entry_size * (there.first + there.count) ≤ length self.now }
        ensures { result.now ≡ entry_bytes self.now there.first there.count }
    {
        let start = entries_at(self.bytes) + ENTRY_BYTES * there.first as usize;
        let end = start + ENTRY_BYTES * there.count as usize;
        &self.bytes[start..end]
    }
}
