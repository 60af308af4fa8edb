// Counts slots of the filled work: how many the image has, and how many of them have a parent.
ghost use Rattle.std.specs.Prelude.{◌≡◌, ◌+◌, ◌*◌, ◌≤◌, ◌<◌, length};
ghost use Rattle.lxtr_spec.specs.Ranges.{count_below};
ghost use Rattle.lxtr_spec.specs.Placing.{is_taken_from2};
ghost use Rattle.lxtr_spec.specs.Builds.{slots_used};
ghost use Rattle.lxtr_write.specs.SlotCounting.{Slots};

// Whether s is a taken slot from 2 up.
#[tactic(auto, unfolding(lxtr_spec::specs::Placing::is_taken_from2, lxtr_spec::specs::Placing::check_at))]
fn is_taken_from_2(work: &[u32], s: usize) -> bool
    requires { 2 * s + 1 < length work.now }
    ensures { result ≡ is_taken_from2 work.now s }
{
    2 <= s && work[2 * s + 1] != 0
}

// N: the highest taken slot plus 1, searched from the last slot down.
pub fn slots_used(work: &[u32], slots: usize) -> usize
    requires slots { Slots work.now slots }
    requires le_slots { 2 ≤ slots }
    ensures { result ≡ slots_used work.now slots }
{
    for s in (2..slots).rev() {
        if is_taken_from_2(work, s) {
            return s + 1;
        }
    }
    2
}

// How many of the slots from 2 to slots - 1 are taken. Adds without a branch: which slots are taken is hard to predict.
pub fn taken_count(work: &[u32], slots: usize) -> usize
    requires { Slots work.now slots }
    ensures { result ≡ count_below slots (is_taken_from2 work.now) }
{
    let mut taken = 0;
    for s in 0..slots {
        taken += is_taken_from_2(work, s) as usize;
    }
    taken
}
