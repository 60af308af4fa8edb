// Writes the offsets and the children lists of the filled work.
ghost use Rattle.std.specs.Prelude.{◌≡◌, ◌++◌, ◌≢◌, ◌+◌, ◌*◌, ◌≤◌, ◌<◌, length};
ghost use Rattle.lxtr_spec.specs.Ranges.{concat_from};
ghost use Rattle.lxtr_spec.specs.Numbers.{le_words};
ghost use Rattle.lxtr_spec.specs.Builds.{child_by, children_of, children_in, offsets_from};
ghost use Rattle.lxtr_laws.specs.Overlays.{over};
ghost use Rattle.lxtr_write.specs.Links.{Linked};
ghost use Rattle.lxtr_write.specs.OneProof.{Linked-prop};
ghost use Rattle.lxtr_write.specs.ListWriting.{Put};

use crate::filled::Filled;
use crate::links::LINK_COUNT;
use lxtr_bytes::numbers::put_le32;
use lxtr_image::nodes::TOP_BIT;
use lxtr_spec::MAX_SLOTS;

// The filled work with the links of all its slots.
#[derive(Clone, Copy)]
struct Links<'a> {
    filled: &'a Filled<'a>,
    links: &'a [u16],
    ghost linked: { Linked filled.now.work.now filled.now.slots filled.now.last filled.now.slots links.now } by { Linked-prop filled.now.work.now filled.now.slots filled.now.last filled.now.slots links.now },
}

impl Links<'_> {
    // Writes the children of p by ascending code as the entries that start at `start`, where entry 0 is at position `at`. Returns
    // the entry after them.
    fn put_children(&self, out: &mut [u8], at: usize, p: u32, start: usize) -> usize
        requires p_nonzero { (p ≢ 0) × (p < self.now.filled.now.slots) }
        requires p_in_bounds { at + 4 * (start + length (concat_from (self.now.filled.now.last + 1) 0 (child_by self.now.filled.now.work.now self.now.filled.now.slots p))) ≤ length out.old }
        ensures { Put out.old out.new at start result (concat_from (self.now.filled.now.last + 1) 0 (child_by self.now.filled.now.work.now self.now.filled.now.slots p)) }
    {
        let mut e = start;
        let mut t = self.links[p as usize];
        // No count: a chain of links.
        while t != 0 {
            put_le32(out, at + 4 * e, t as u32);
            e += 1;
            t = self.links[MAX_SLOTS + t as usize];
        }
        e
    }

    // Writes the list of slot p in the same way. Slot 0 and ends have no children.
    fn put_list(&self, out: &mut [u8], at: usize, p: u32, start: usize) -> usize
        requires p_lt_slots { p < self.now.filled.now.slots }
        requires p_in_bounds { at + 4 * (start + length (children_of self.now.filled.now.work.now self.now.filled.now.slots self.now.filled.now.last p)) ≤ length out.old }
        ensures { Put out.old out.new at start result (children_of self.now.filled.now.work.now self.now.filled.now.slots self.now.filled.now.last p) }
    {
        if (p == 0) | (TOP_BIT <= self.filled.work[2 * p as usize]) {
            return start;
        }
        self.put_children(out, at, p, start)
    }

    // Writes the offsets, starting at position `at`, and after them the lists of all slots.
    fn put_linked(&self, out: &mut [u8], at: usize)
        requires last_len_bound { length (children_in self.now.filled.now.work.now self.now.filled.now.slots self.now.filled.now.last) ≤ self.now.filled.now.slots }
        requires last_in_bounds { at + 4 * (self.now.filled.now.slots + 1) + 4 * length (children_in self.now.filled.now.work.now self.now.filled.now.slots self.now.filled.now.last) ≤ length out.old }
        ensures { out.new ≡ over out.old at (le_words (offsets_from self.now.filled.now.work.now self.now.filled.now.slots self.now.filled.now.last self.now.filled.now.slots 0 0) ++ le_words (children_in self.now.filled.now.work.now self.now.filled.now.slots self.now.filled.now.last)) }
    {
        let slots = self.filled.slots;
        let children_at = at + 4 * (slots + 1);
        let mut e = 0;
        for p in 0..slots {
            put_le32(out, at + 4 * p, e as u32);
            e = self.put_list(out, children_at, p as u32, e);
        }
        put_le32(out, at + 4 * slots, e as u32);
    }
}

impl Filled<'_> {
    // Writes the offsets, starting at position `at`, and after them the lists of all slots.
    pub fn put_lists(&self, out: &mut [u8], at: usize)
        requires last_len_bound { length (children_in self.now.work.now self.now.slots self.now.last) ≤ self.now.slots }
        requires last_in_bounds { at + 4 * (self.now.slots + 1) + 4 * length (children_in self.now.work.now self.now.slots self.now.last) ≤ length out.old }
        ensures { out.new ≡ over out.old at (le_words (offsets_from self.now.work.now self.now.slots self.now.last self.now.slots 0 0) ++ le_words (children_in self.now.work.now self.now.slots self.now.last)) }
    {
        let mut links = [0u16; LINK_COUNT];
        self.link_all(&mut links);
        let linked = Links {
            filled: self,
            links: &links,
        };
        linked.put_linked(out, at);
    }
}
