// The joining rule: the base of a slot and a code give the next slot.
ghost use Rattle.std.specs.Prelude.{◌≡◌};
ghost use Rattle.lxtr_spec.specs.Joining.{slot_under, code_under};

// The slot that a code reaches from a base.
#[tactic(auto, unfolding(lxtr_spec::specs::Joining::slot_under))]
pub fn slot_under(base: u32, code: u32) -> u32
    ensures { result ≡ slot_under base code }
{
    base ^ code
}

// The code by which a base reaches a slot.
#[tactic(auto, unfolding(lxtr_spec::specs::Joining::code_under))]
pub fn code_under(base: u32, slot: u32) -> u32
    ensures { result ≡ code_under base slot }
{
    base ^ slot
}
