// Settles a slot: finds its base, writes its own words and those of its children, and takes their slots in the map of free slots.
ghost use Rattle.std.specs.Prelude.{◌≡◌, ◌+◌, ◌*◌, ◌/◌, ◌<◌, length};
ghost use Rattle.lxtr_spec.specs.Labels.{value_limit, max_slots};
ghost use Rattle.lxtr_spec.specs.Joining.{slot_under};
ghost use Rattle.lxtr_spec.specs.Placing;
ghost use Rattle.lxtr_spec.specs.Placing.{put_parent, put_child, put_children};
ghost use Rattle.lxtr_build_laws.specs.PlacingSteps.{Ready};
ghost use Rattle.lxtr_build_laws.specs.SlotLoops.{SlotsBelow, each_step};
ghost use Rattle.lxtr_fit.specs.FreeMaps.{taken_by};
ghost use Rattle.lxtr_place.specs.SettlingWords.{settled_as};

use crate::work::Work;
use lxtr_fit::free_map::FreeSlots;
use lxtr_image::joining::slot_under;
use lxtr_image::nodes::TOP_BIT;

// Writes slot p's own words: its base, and HAS_LEAF in its check if the first of the codes is that of an end.
fn put_parent(work: &mut [u32], p: u32, base: u32, codes: &[u32])
    requires { 2 * p + 1 < length work.old }
    ensures { work.new ≡ put_parent p base codes.now work.old }
{
    work[2 * p as usize] = base;
    if codes.len() == 0 {
        return;
    }
    if codes[0] != 0 {
        return;
    }
    work[2 * p as usize + 1] = TOP_BIT + work[2 * p as usize + 1] % TOP_BIT;
}

// Writes the words of p's child by a code. An end, which has code 0, also gets IS_LEAF and the value.
fn put_child(work: &mut [u32], p: u32, value: u32, base: u32, code: u32)
    requires code_in_bounds { 2 * slot_under base code + 1 < length work.old }
    requires value_lt_value_limit { value < value_limit }
    ensures { work.new ≡ put_child p value base code work.old }
{
    let t = slot_under(base, code) as usize;
    if code != 0 {
        work[2 * t + 1] = p;
        return;
    }
    work[2 * t] = TOP_BIT + value;
    work[2 * t + 1] = p;
}

// Writes the words of all children of p.
fn put_children(work: &mut [u32], p: u32, value: u32, base: u32, codes: &[u32])
    requires slots_below { SlotsBelow (length work.old / 2) base codes.now }
    requires value_lt_value_limit { value < value_limit }
    ensures { work.new ≡ put_children p value base codes.now work.old }
{
    for code in codes {
        put_child(work, p, value, base, *code);
    }
}

// Writes the words of p and of its children under a base, and takes the children's slots in the map.
fn put_under(words: &mut [u32], free: &mut FreeSlots, p: u32, value: u32, base: u32, codes: &[u32])
    requires p_in_bounds { 2 * p + 1 < length words.old }
    requires slots_below { SlotsBelow (length words.old / 2) base codes.now }
    requires slots_below_2 { SlotsBelow max_slots base codes.now }
    requires value_lt_value_limit { value < value_limit }
    ensures words_after { words.new ≡ put_children p value base codes.now (put_parent p base codes.now words.old) }
    ensures free_after { free.new.map ≡ each_step (taken_by base) codes.now free.old.map }
    ensures lowest_unchanged { free.new.lowest ≡ free.old.lowest }
{
    put_parent(words, p, base, codes);
    put_children(words, p, value, base, codes);
    free.take_under(base, codes);
}

impl Work<'_> {
    // Places the children of p, which have these codes; `value` is the value of the end, if there is one. Returns the base of p, if
    // one fits.
    pub fn settle(&mut self, p: u32, value: u32, codes: &[u32]) -> Option<u32>
        requires ready { Ready self.old.slots self.old.words.now p }
        requires value_lt_value_limit { value < value_limit }
        ensures same_work { (self.new.slots ≡ self.old.slots) × (self.new.words.ghost_name ≡ self.old.words.ghost_name) }
        ensures words_after { settled_as result self.new.words.now ≡ Placing.settle self.old.slots p value codes.now self.old.words.now }
    {
        let base = self.free.first_fit(codes)?;
        put_under(self.words, &mut self.free, p, value, base, codes);
        Some(base)
    }
}
