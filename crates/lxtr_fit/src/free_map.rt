// The map of free slots, kept beside the lent work: one bit for each slot, which is set while the slot is free.
ghost use Rattle.std.specs.Prelude.{◌≡◌, ℕ, List, ◌*◌, ◌-◌, ◌/◌, ◌^◌, ◌≤◌, ◌<◌, min, length};
ghost use Rattle.lxtr_spec.specs.Labels.{max_slots};
ghost use Rattle.lxtr_laws.specs.SlotMaps.{word_bits, slot_bit};
ghost use Rattle.lxtr_laws.specs.Firsts.{FirstOf};
ghost use Rattle.lxtr_build_laws.specs.Work.{Cleared};
ghost use Rattle.lxtr_build_laws.specs.SlotLoops.{SlotsBelow, each_step};
ghost use Rattle.lxtr_fit.specs.FreeMaps.{map_words, FreeMap, taken_in, taken_by};

use lxtr_image::joined_words::{ALL_BITS, WORD_BITS};
use lxtr_image::joining::slot_under;
use lxtr_spec::MAX_SLOTS;

// The number of words in the map.
pub const MAP_WORDS: usize = MAX_SLOTS / WORD_BITS as usize;

// The map, and a slot below which none is free.
#[derive(Drop)]
pub struct FreeSlots {
    pub map: [u64; MAP_WORDS],
    pub lowest: u32,
}

// Word i of a map in which just the slots below `slots` are set.
fn word_below(slots: usize, i: usize) -> u64
    requires { i < map_words }
    ensures { result ≡ 2 ^ min word_bits (slots - word_bits * i) - 1 }
{
    let before = WORD_BITS as usize * i;
    if slots <= before {
        return 0;
    }
    if WORD_BITS as usize <= slots - before {
        return ALL_BITS;
    }
    (1 << (slots - before)) - 1
}

impl FreeSlots {
    // The map of work that is cleared: the slots from 2 to slots - 1 are free.
    pub fn of_cleared(slots: usize) -> Self
        requires { slots ≤ max_slots }
        ensures { (w : List ℕ) → Cleared w → FreeMap slots w result.map result.lowest }
    {
        let mut map = [0; MAP_WORDS];
        for i in 0..MAP_WORDS {
            map[i] = word_below(slots, i);
        }
        let mut free = FreeSlots { map, lowest: 0 };
        free.take(0);
        free.take(1);
        free
    }

    // Takes slot t: clears its bit.
    fn take(&mut self, t: u32)
        requires { t / word_bits < map_words }
        ensures map_after { self.new.map ≡ taken_in t self.old.map }
        ensures lowest_unchanged { self.new.lowest ≡ self.old.lowest }
    {
        let i = (t / WORD_BITS) as usize;
        self.map[i] &= !(1 << (t % WORD_BITS));
    }

    // Takes the slot of each code under the base.
    pub fn take_under(&mut self, base: u32, codes: &[u32])
        requires { SlotsBelow max_slots base codes.now }
        ensures map_after { self.new.map ≡ each_step (taken_by base) codes.now self.old.map }
        ensures lowest_unchanged { self.new.lowest ≡ self.old.lowest }
    {
        for code in codes {
            self.take(slot_under(base, *code));
        }
    }
}

// The first free slot from `from` on; nothing only if none is left from there.
pub fn next_free(free: &[u64], from: u32) -> Option<u32>
    requires { length free.now ≡ map_words }
    ensures { FirstOf (slot_bit free.now) from max_slots result }
{
    let mut at = from;
    // No count: the first turn goes to the end of a word, the others over whole words.
    while ((at / WORD_BITS) as usize) < free.len() {
        let word = free[(at / WORD_BITS) as usize] >> (at % WORD_BITS);
        if word != 0 {
            return Some(at + word.trailing_zeros());
        }
        at = at / WORD_BITS * WORD_BITS + WORD_BITS;
    }
    None
}
