// The joining rule for 64 bases at a time, over a map with one bit for each slot. This and `joining` are all the code that knows
// the rule.
ghost use Rattle.std.specs.Prelude.{◌≡◌, true, ◌*◌, ◌%◌, ◌<◌};
ghost use Rattle.lxtr_laws.specs.SlotMaps.{word_bits, BitsOf};
ghost use Rattle.lxtr_laws.specs.JoinedWords.{Reordered, is_swap_mask, bit_under};

// The number of bits in a word, and the word in which all are set.
pub const WORD_BITS: u32 = 64;

pub const ALL_BITS: u64 = 0xffffffffffffffff;

// Exchanges each bit of the mask with the bit `width` places above it, if the digit is 1.
#[tactic(auto, using(lxtr_laws::specs::JoinedWords::digit_none, lxtr_laws::specs::JoinedWords::digit_one))]
fn swap(word: u64, digit: u32, width: u32, mask: u64) -> u64
    requires digit_bound { digit < 2 }
    requires width_lt_word_bits { width < word_bits }
    requires mask_value { is_swap_mask width mask ≡ true }
    ensures { Reordered (digit * width) word result }
{
    if digit == 0 {
        return word;
    }
    ((word >> width) & mask) | ((word & mask) << width)
}

// The bits of a word in the order of the bases: bit j of the answer is the bit for the slot that the low six binary digits of
// the code reach from base j.
#[tactic(auto, using(lxtr_laws::specs::JoinedWords::all_reordered), unfolding(lxtr_laws::specs::JoinedWords::is_swap_mask, lxtr_laws::specs::JoinedWords::wrong_at, lxtr_laws::specs::JoinedWords::swaps_at, lxtr_laws::specs::BinaryDigits::bit, lxtr_spec::specs::Joining::slot_under, lxtr_spec::specs::Ranges::any_below))]
fn reordered(word: u64, code: u32) -> u64
    ensures { Reordered (code % word_bits) word result }
{
    let by_1 = swap(word, code % 2, 1, 0x5555555555555555);
    let by_2 = swap(by_1, code / 2 % 2, 2, 0x3333333333333333);
    let by_4 = swap(by_2, code / 4 % 2, 4, 0x0f0f0f0f0f0f0f0f);
    let by_8 = swap(by_4, code / 8 % 2, 8, 0x00ff00ff00ff00ff);
    let by_16 = swap(by_8, code / 16 % 2, 16, 0x0000ffff0000ffff);
    swap(by_16, code / 32 % 2, 32, 0x00000000ffffffff)
}

// Bit j of the answer is the bit of the slot that the code reaches from base WORD_BITS * block + j. A slot past the map is not set.
// A word that is 0 needs no other order; a search may pass many of them.
#[tactic(auto, using(lxtr_laws::specs::JoinedWords::under_past, lxtr_laws::specs::JoinedWords::under_none, lxtr_laws::specs::JoinedWords::under_some))]
pub fn word_under(map: &[u64], block: u32, code: u32) -> u64
    ensures { BitsOf (bit_under map.now code) (word_bits * block) word_bits result }
{
    let i = block as usize ^ (code / WORD_BITS) as usize;
    if map.len() <= i {
        return 0;
    }
    let word = map[i];
    if word == 0 {
        return 0;
    }
    reordered(word, code)
}
