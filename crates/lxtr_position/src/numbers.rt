// The position as a 64-bit number, as a program in C holds it. Each such number is one position.
ghost use Rattle.std.specs.Prelude.{◌≡◌};
ghost use Rattle.lxtr_spec.specs.HostNumbers.{position_number, position_of};
ghost use Rattle.lxtr_position.specs.Means.{position_means};

use crate::Position;

// The parts of the number: the slot, WALKED_UNIT times the labels walked, TYPED_UNIT times the labels typed.
const WALKED_UNIT: u64 = 0x1_0000_0000;

const TYPED_UNIT: u64 = 0x1_0000_0000_0000;

impl From<Position> for u64 {
    ghost from_gives = { λ p n. n ≡ position_number (position_means p) };

    #[tactic(auto, unfolding(lxtr_spec::specs::HostNumbers::position_number))]
    fn from(p: Position) -> u64 {
        p.slot as u64 + p.walked as u64 * WALKED_UNIT + p.typed as u64 * TYPED_UNIT
    }
}

impl From<u64> for Position {
    ghost from_gives = { λ n p. position_means p ≡ position_of n };

    #[tactic(auto, unfolding(lxtr_spec::specs::HostNumbers::position_of))]
    fn from(number: u64) -> Position {
        Position {
            slot: (number % WALKED_UNIT) as u32,
            walked: (number / WALKED_UNIT % 0x1_0000) as u16,
            typed: (number / TYPED_UNIT) as u16,
        }
    }
}
