// Finds where the fault lies in an image that is refused by 9 to 12. Any caller may use `fault`.
#![tactic(auto)]

mod list_faults; // 11: where a list is wrong

ghost use Rattle.std.specs.Prelude.{◌≡◌};
ghost use Rattle.lxtr_spec.specs.FaultPlaces.{fault_of};

use crate::list_faults::list_fault;
use lxtr_check_labels::first_wrong_label;
use lxtr_check_lists::lists_wrong;
use lxtr_check_reach::first_unreachable;
use lxtr_check_slots::Slots;
use lxtr_header::read;
use lxtr_spec::Fault;

// Where the fault lies: for refusals 9 to 12, the first place at which the rule does not hold.
pub fn fault(image: &[u8]) -> Option<Fault>
    ensures { result ≡ fault_of image.now }
{
    let Ok(image) = read(image) else {
        return None;
    };
    if let Some(i) = first_wrong_label(&image) {
        return Some(Fault::Label(i));
    }
    let slots = match Slots::check(&image) {
        Ok(slots) => slots,
        Err(s) => return Some(Fault::Slot(s)),
    };
    if lists_wrong(&slots) {
        return Some(list_fault(&slots));
    }
    first_unreachable(&slots).map(Fault::Unreachable)
}
