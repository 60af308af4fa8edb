// Lists the pairs below a slot of an accepted image, each as a record in lent room. The labels from slot 1 to the slot are kept
// at the front of a lent path.
ghost use Rattle.std.specs.Prelude.{◌≡◌, ◌-◌, ◌<◌, ◌≤◌, length, take, IfNone};
ghost use Rattle.lxtr_spec.specs.Labels.{max_labels, length_count};
ghost use Rattle.lxtr_spec.specs.Image.{slot_count, child_count, child};
ghost use Rattle.lxtr_spec.specs.Joining.{code_under};
ghost use Rattle.lxtr_spec.specs.Completions.{list_from};
ghost use Rattle.lxtr_complete.specs.RecordWriting.{after};
ghost use Rattle.lxtr_complete.specs.Answers.{state_of};
ghost use Rattle.lxtr_complete.specs.Listing.{CodeListed, EntryOf, EndsOf, end_pairs, Kept, ListReady};

use crate::records::Records;
use lxtr_check::AcceptedImage;
use lxtr_image::Image;
use lxtr_image::joining::code_under;
use lxtr_spec::LENGTH_COUNT;

// An entry of a children list that is not an end: the child, and the label that leads to it.
#[derive(Clone, Copy)]
struct Entry {
    slot: u32,
    label: u32,
}

// Entry j of the children array, which is in the list of a slot with this base.
fn entry_at(image: &Image, base: u32, j: u32) -> Entry
    requires j_bound { j < child_count image.now }
    requires code_listed { CodeListed image.now (code_under base (child image.now j)) }
    ensures { EntryOf image.now base j result.slot result.label }
{
    let slot = image.child(j);
    let code = code_under(base, slot);
    Entry {
        slot,
        label: image.label(code - 1),
    }
}

// The number of ends in the list of slot n, 1 or 0, which is added to where the list starts. Codes rise along a list and the code of an end is 0, so only the first entry
// can be an end. HAS_LEAF is tested first, because it is known sooner than the entry.
fn ends_of(accepted: &AcceptedImage, n: u32) -> u32
    requires { n < slot_count accepted.now }
    ensures { EndsOf accepted.now n result }
{
    let image = accepted.image();
    if !image.has_leaf(n) {
        return 0;
    }
    let first = image.offset(n);
    if image.offset(n + 1) <= first {
        return 0;
    }
    if image.code_to(n, image.child(first)) != 0 {
        return 0;
    }
    1
}

// Writes the record of the end in the list of slot n, if there is one. The labels of the key reach the slot.
fn list_end(
    accepted: &AcceptedImage,
    n: u32,
    ends: u32,
    key: &[u32],
    records: &mut Records,
) -> Option<()>
    requires n_bound { n < slot_count accepted.now }
    requires ends_of { EndsOf accepted.now n ends }
    requires key_bound { length key.now ≤ max_labels }
    ensures state { state_of records.new ≡ after (state_of records.old) (end_pairs accepted.now n ends key.now) }
    ensures stopped { IfNone result ((state_of records.new).at ≡ 0) }
    ensures same_room { records.new.room.ghost_name ≡ records.old.room.ghost_name }
{
    if ends == 0 {
        return Some(());
    }
    let image = accepted.image();
    let leaf = image.child(image.offset(n));
    records.put(key, image.value_number(leaf))
}

// Writes the records of the pairs below slot n, with `left` labels still allowed. The slot's own labels are at the front of the path;
// the other places of the path are for the labels further down. None if a record had no room.
pub fn list_below(
    accepted: &AcceptedImage,
    left: usize,
    n: u32,
    path: &mut [u32; LENGTH_COUNT],
    records: &mut Records,
) -> Option<()>
    requires { ListReady accepted.now left n path.old }
    ensures state { state_of records.new ≡ after (state_of records.old) (list_from accepted.now left n (take (length_count - left) path.old)) }
    ensures stopped { IfNone result ((state_of records.new).at ≡ 0) }
    ensures kept { Kept (length_count - left) path.old path.new }
    ensures same_room { records.new.room.ghost_name ≡ records.old.room.ghost_name }
{
    if left == 0 {
        return Some(());
    }
    let len = LENGTH_COUNT - left;
    let image = accepted.image();
    let base = image.base(n);
    let end = image.offset(n + 1);
    let ends = ends_of(accepted, n);
    let first = image.offset(n) + ends;
    list_end(accepted, n, ends, &path[..len], records)?;
    for j in first..end {
        let entry = entry_at(&image, base, j);
        path[len] = entry.label;
        list_below(accepted, left - 1, entry.slot, path, records)?;
    }
    Some(())
}
