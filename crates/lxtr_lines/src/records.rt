// The records of a listing: a key as in a key list, then its value in four bytes.
ghost use Rattle.std.specs.Prelude.{◌≡◌, true, ◌-◌, length};
ghost use Rattle.std.specs.Iterator.{at_most};
ghost use Rattle.lxtr_spec.specs.Labels.{labels_of};
ghost use Rattle.lxtr_command_spec.specs.Forms.{completion_line};
ghost use Rattle.lxtr_lines.specs.Records.{record_pair, record_end, is_whole_record, NextRecord};
ghost use Rattle.lxtr_text.specs.Writing.{wrote};

use crate::keys::append_key;
use lxtr_bytes::numbers::be32_at;
use lxtr_keys::{key_length, next_key};
use lxtr_spec::MAX_LABELS;
use lxtr_text::Line;

// A key, as bytes of labels, and its value.
#[derive(Clone, Copy)]
pub struct Record<'a> {
    pub labels: &'a [u8],
    pub value: u32,
}

// The records of a listing from a place on, as far as they lie wholly in it.
#[derive(Drop)]
pub struct Records<'a> {
    listing: &'a [u8],
    at: usize,
}

impl<'a> Records<'a> {
    pub fn new(listing: &'a [u8], at: usize) -> Records<'a>
        ensures listing { result.listing.now ≡ listing.now }
        ensures at { result.at ≡ at }
    {
        Records { listing, at }
    }
}

impl<'a> Iterator for Records<'a> {
    type Item = Record<'a>;

    ghost next_gives = { NextRecord };

    ghost remaining = { λ s. at_most (length s.listing.now - s.at) };

    fn next(&mut self) -> Option<Record<'a>> {
        if !is_whole_record(self.listing, self.at) {
            return None;
        }
        let record = record_at(self.listing, self.at);
        self.at = record_end(self.listing, self.at);
        Some(record)
    }
}

// Whether the record at `at` lies wholly in the listing, and its key has no more labels than a key may have.
#[tactic(auto, unfolding(crate::specs::Records::is_whole_record, crate::specs::Records::record_end, lxtr_spec::specs::KeyLists::next_key, lxtr_spec::specs::Labels::max_labels), using(std::proofs::lemmas::Bool::Decides::nat_tests))]
pub fn is_whole_record(listing: &[u8], at: usize) -> bool
    ensures { result ≡ is_whole_record listing.now at }
{
    if listing.len() <= at {
        return false;
    }
    if MAX_LABELS < key_length(listing, at) {
        return false;
    }
    next_key(listing, at) + 4 <= listing.len()
}

// The position after the record at `at`.
fn record_end(listing: &[u8], at: usize) -> usize
    requires { is_whole_record listing.now at ≡ true }
    ensures { result ≡ record_end listing.now at }
{
    next_key(listing, at) + 4
}

// The record at `at`.
fn record_at<'a>(listing: &'a [u8], at: usize) -> Record<'a>
    requires { is_whole_record listing.now at ≡ true }
    ensures { (labels_of result.labels.now, result.value) ≡ record_pair listing.now at }
{
    let end = next_key(listing, at);
    Record {
        labels: &listing[at + 1..end],
        value: be32_at(listing, end),
    }
}

// Writes a value with the text and the labels of its key, and ends the line.
#[tactic(auto, unfolding(lxtr_command_spec::specs::Forms::completion_line), using(lxtr_text::specs::Writing::wrote_wrote))]
pub fn append_record(line: &mut Line<'_>, record: Record<'_>)
    ensures { line.new ≡ wrote line.old (completion_line (labels_of record.entry.labels.now, record.entry.value)) }
{
    line.decimal(record.value);
    line.push(b'\t');
    append_key(line, record.labels);
}
