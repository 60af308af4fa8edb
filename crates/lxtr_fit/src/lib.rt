// The search for a base: the smallest one under which the slots of all children are free. `lxtr_place` calls `first_fit`, and keeps
// the map of free slots (`FreeSlots`) by `of_cleared` and `take_under`; `slots_in` is for `lxtr_place` and `lxtr_write`.
#![tactic(auto)]

pub mod slots; // how many slots lent work has
pub mod free_map; // which of them are free
pub mod fitting; // first fit
