// First fit: the smallest base under which the slots of some codes are free. Only `first_fit` and its parts search for a base. They
// look at a block of WORD_BITS bases at a time, in the map of free slots.
ghost use Rattle.std.specs.Prelude.{◌≡◌, ℕ, List, ◌*◌, ◌-◌, ◌≤◌};
ghost use Rattle.lxtr_spec.specs.Placing.{first_fit, base_count};
ghost use Rattle.lxtr_laws.specs.SlotMaps.{word_bits, BitsOf};
ghost use Rattle.lxtr_laws.specs.Firsts.{FirstOf};
ghost use Rattle.lxtr_fit.specs.FreeMaps.{FreeMap, all_under};

use crate::free_map::{FreeSlots, next_free};
use lxtr_image::joined_words::{ALL_BITS, WORD_BITS, word_under};
use lxtr_spec::BASE_COUNT;

// The number of blocks of bases.
const BLOCK_COUNT: u32 = BASE_COUNT as u32 / WORD_BITS;

// Bit j of the answer says whether the slots of all codes are free under base WORD_BITS * block + j.
fn bases_in(free: &[u64], block: u32, codes: &[u32]) -> u64
    ensures { BitsOf (all_under free.now codes.now) (word_bits * block) word_bits result }
{
    let mut bases = ALL_BITS;
    for code in codes {
        bases &= word_under(free, block, *code);
        if bases == 0 {
            return 0;
        }
    }
    bases
}

// The smallest base from block `first` on under which the slots of all codes are free, or nothing if there is none.
fn fit_from(free: &[u64], first: u32, codes: &[u32]) -> Option<u32>
    ensures { FirstOf (all_under free.now codes.now) (word_bits * first) base_count result }
{
    for block in first..BLOCK_COUNT {
        let bases = bases_in(free, block, codes);
        if bases != 0 {
            return Some(WORD_BITS * block + bases.trailing_zeros());
        }
    }
    None
}

// A block such that under all bases of lower blocks the code's slot is below t. (No base and code reach a slot above their sum.)
fn first_block(t: u32, code: u32) -> u32
    ensures { word_bits * result ≤ t - code }
{
    t.saturating_sub(code) / WORD_BITS
}

impl FreeSlots {
    // The smallest base under which the slots of all codes are free, or nothing if no base fits. `lowest` rises to the first free
    // slot; lower blocks, in which the first code stays below that slot under every base, are left out. The contract speaks of
    // each work of which this is the map.
    pub fn first_fit(&mut self, codes: &[u32]) -> Option<u32>
        ensures result_value { (S : ℕ) (w : List ℕ) → FreeMap S w self.old.map self.old.lowest → result ≡ first_fit S w codes.now }
        ensures free_map { (S : ℕ) (w : List ℕ) → FreeMap S w self.old.map self.old.lowest → FreeMap S w self.new.map self.new.lowest }
    {
        if codes.is_empty() {
            return Some(0);
        }
        let t = next_free(&self.map, self.lowest)?;
        self.lowest = t;
        fit_from(&self.map, first_block(t, codes[0]), codes)
    }
}
