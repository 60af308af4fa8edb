// Rule 12: some used slot from 2 up doesn't reach slot 1. If no slot is wrong (rule 10), each parent is a slot, slots 0 and 1
// have parent 0, and a used slot from 2 up has a used parent. So the steps from a used slot reach slot 0 only through slot 1, and
// then stay there. It is enough to look at the slot after STEPS steps; the single steps need no test.
#![tactic(auto)]

ghost use Rattle.std.specs.Prelude.{◌≡◌, ◌<◌};
ghost use Rattle.lxtr_spec.specs.Image.{slot_count};
ghost use Rattle.lxtr_spec.specs.Refusals.{unreachable};
ghost use Rattle.lxtr_laws.specs.Facts.{ancestor};
ghost use Rattle.lxtr_laws.specs.FirstPlaces.{first_in};

use lxtr_check_slots::Slots;
use lxtr_spec::LENGTH_COUNT;

// A slot that reaches slot 1 by LENGTH_COUNT or fewer steps reaches slot 0 by this many.
const STEPS: usize = LENGTH_COUNT + 1;

// The number of steps between two tests. From most slots this many steps already reach slot 0, so the first test decides.
const STRIDE: usize = 8;

// The slot that this many steps to the parent reach from slot s.
fn ancestor(slots: &Slots, s: u32, steps: usize) -> u32
    requires { s < slot_count slots.now }
    ensures value { result ≡ ancestor slots.now steps s }
    ensures upper_bound { result < slot_count slots.now }
{
    let image = slots.image();
    let mut at = s;
    for _ in 0..steps {
        at = image.parent(at);
    }
    at
}

// Whether STEPS steps from slot s do not reach slot 0.
fn unreachable(slots: &Slots, s: u32) -> bool
    requires { s < slot_count slots.now }
    ensures { result ≡ unreachable slots.now s }
{
    let _ = slots.image(); // no slot is wrong
    let mut at = s;
    for _ in 0..STEPS / STRIDE {
        at = ancestor(slots, at, STRIDE);
        let at_slot_0 = at == 0;
        if at_slot_0 {
            return false;
        }
    }
    ancestor(slots, at, STEPS % STRIDE) != 0
}

// The first slot that does not reach slot 1.
pub fn first_unreachable(slots: &Slots) -> Option<u32>
    ensures { result ≡ first_in (slot_count slots.now) (unreachable slots.now) }
{
    (0..slots.image().slot_count()).find(|&s| unreachable(slots, s))
}
