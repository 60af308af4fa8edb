// Places the keys of a group: its slot is settled, and each child is then placed in turn, by ascending code, down to its end,
// before the next.
ghost use Rattle.std.specs.Prelude.{◌≡◌, ◌+◌, ◌≤◌, length};
ghost use Rattle.lxtr_spec.specs.Labels.{length_count};
ghost use Rattle.lxtr_spec.specs.Placing;
ghost use Rattle.lxtr_build_laws.specs.Work.{placed_as};
ghost use Rattle.lxtr_place.specs.Children.{Fresh};
ghost use Rattle.lxtr_place.specs.Plans.{code_in, label_in, pairs_in};

use crate::groups::KeyGroup;
use crate::work::Work;
use lxtr_image::joining::slot_under;

impl Work<'_> {
    // Places the group of slot p and all below it, with `left` labels still allowed. Answers nothing if some slot gets no base. The
    // codes of p's children are kept at the front of the room, and the rest of the room is lent on.
    pub fn place(&mut self, p: u32, g: &KeyGroup, left: usize, room: &mut [u32]) -> Option<()>
        requires fresh { Fresh self.old.slots self.old.words.now p }
        requires deep { left + g.now.span.depth ≡ length_count }
        requires long { g.now.span.count + left ≤ length room.old }
        ensures same_work { (self.new.slots ≡ self.old.slots) × (self.new.words.ghost_name ≡ self.old.words.ghost_name) }
        ensures words_after { placed_as result self.new.words.now ≡ Placing.place self.old.slots (code_in g.now.plan.now) (label_in g.now.plan.now) left p (pairs_in g.now) self.old.words.now }
    {
        if left == 0 {
            return Some(());
        }
        let count = g.child_codes(room);
        let base = self.settle(p, g.end_value(), &room[..count])?;
        for j in 0..count {
            let code = room[j];
            if code != 0 {
                let child = g.child(code);
                self.place(slot_under(base, code), &child, left - 1, &mut room[count..])?;
            }
        }
        Some(())
    }
}
