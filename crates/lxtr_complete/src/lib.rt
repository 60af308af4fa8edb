// Completions of LXTR images, written into lent room: the pairs whose keys begin with the labels of a query. Any caller may use
// `complete`; the other functions are its parts.
#![tactic(auto)]

mod records; // one record after the other
mod listing; // the pairs below a slot

ghost use Rattle.std.specs.Prelude.{◌≡◌, ◌≤◌, ◌<◌, length, take};
ghost use Rattle.lxtr_spec.specs.Labels.{labels_of};
ghost use Rattle.lxtr_spec.specs.Completions.{pairs_below, written, completion_of};
ghost use Rattle.lxtr_complete.specs.RecordWriting.{after};
ghost use Rattle.lxtr_complete.specs.Answers.{state_of, completion_given, listing_given};

use crate::listing::list_below;
use crate::records::Records;
use lxtr_bytes::heads::HEAD_LENGTH;
use lxtr_bytes::labels::{Labels, label_count};
use lxtr_check::AcceptedImage;
use lxtr_spec::refusals::Refusal;
use lxtr_spec::{LENGTH_COUNT, Listing};
use lxtr_walk::{open, walk_within};

// Writes the labels of a query to the front of a path.
fn fill_path(query: &[u8], path: &mut [u32])
    requires { length (labels_of query.now) ≤ length path.old }
    ensures { take (length (labels_of query.now)) path.new ≡ labels_of query.now }
{
    for (i, label) in Labels::of(query).enumerate() {
        path[i] = label;
    }
}

// Writes the records of the pairs whose keys begin with the labels of the query; of none if these labels reach no slot.
fn list_query(accepted: &AcceptedImage, query: &[u8], records: &mut Records)
    ensures state { state_of records.new ≡ after (state_of records.old) (pairs_below accepted.now (labels_of query.now)) }
    ensures same_room { records.new.room.ghost_name ≡ records.old.room.ghost_name }
{
    let Some(n) = walk_within(&accepted.image(), query) else {
        return;
    };
    let mut path = [0u32; LENGTH_COUNT];
    fill_path(query, &mut path);
    let left = LENGTH_COUNT - label_count(query);
    let _ = list_below(accepted, left, n, &mut path, records); // the records tell whether one had no room
}

// Writes the listing of these pairs.
fn list_pairs(accepted: &AcceptedImage, query: &[u8], room: &mut [u8]) -> Listing
    requires { 5 ≤ length room.old }
    ensures { record { answer = listing_given result; room = room.new } ≡ written room.old (pairs_below accepted.now (labels_of query.now)) }
{
    let _ = accepted.image(); // bounds the number of pairs
    let mut records = Records::new(room);
    list_query(accepted, query, &mut records);
    records.finish()
}

// Completions: the pairs whose keys begin with the labels of the query, up to the first without room. The refusals: 1 to 8 of the image,
// 13 of the query, 9 to 12 of the image, then 14 for room below 5 bytes. A refusal writes nothing.
pub fn complete(image: &[u8], query: &[u8], room: &mut [u8]) -> Result<Listing, Refusal>
    ensures { record { answer = completion_given result; room = room.new } ≡ completion_of image.now query.now room.old }
{
    let opened = open(image, query)?;
    let accepted = AcceptedImage::check(&opened)?;
    if room.len() < HEAD_LENGTH {
        return Err(Refusal::RoomTooSmall);
    }
    Ok(list_pairs(&accepted, query, room))
}
