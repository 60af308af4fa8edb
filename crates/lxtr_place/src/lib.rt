// Places the keys of a key list by first fit, as slots in lent work: document 01, "Building".
#![tactic(auto)]

mod groups; // the keys that pass a slot
mod ranges; // the parts of a group
mod codes; // the codes of a group's children
mod work; // the lent work, with the map of its free slots
mod settling; // a slot's own words, its children's, and their slots in the map
mod placing; // a group and all below it

ghost use Rattle.std.specs.Prelude.{◌≡◌, ◌+◌, ◌<◌, length};
ghost use Rattle.lxtr_spec.specs.KeyLists.{key_count, pairs_of};
ghost use Rattle.lxtr_spec.specs.CodeMaps.{map_of};
ghost use Rattle.lxtr_spec.specs.Builds.{placed_in};
ghost use Rattle.lxtr_build_laws.specs.Work.{Cleared, placed_as};
ghost use Rattle.lxtr_place.specs.AllKeys.{StartsPut};

use crate::groups::{Group, KeyGroup, Plan};
use crate::work::Work;
use lxtr_codes::guesses::{Guesses, note_all};
use lxtr_codes::tables::Tables;
use lxtr_fit::free_map::FreeSlots;
use lxtr_fit::slots::slots_in;
use lxtr_keys::KEYS_AT;
use lxtr_keys::list::KeyList;
use lxtr_spec::{LENGTH_COUNT, MAX_KEYS};

// Room for the codes of the children of all slots on the way to a slot. At each of these slots, all codes but one belong to keys
// that do not go on to the next slot, so there are at most this many.
const ROOM: usize = MAX_KEYS + LENGTH_COUNT;

// Writes where each key starts and, after the last one, where the list ends.
fn put_starts(keys: &KeyList, starts: &mut [u32])
    requires { key_count keys.now.bytes.now < length starts.old }
    ensures starts_len_unchanged { length starts.new ≡ length starts.old }
    ensures starts_put { StartsPut keys.now.bytes.now starts.new (key_count keys.now.bytes.now + 1) }
{
    let mut end: usize = KEYS_AT;
    for (i, key) in keys.keys().enumerate() {
        starts[i] = key.at as u32;
        end = key.next();
    }
    starts[keys.count()] = end as u32;
}

// Places all keys, starting at slot 1, with the tables of their code map. Answers nothing if some slot gets no base.
pub fn place_all(tables: &Tables, work: &mut [u32]) -> Option<()>
    requires { Cleared work.old }
    ensures { placed_as result work.new ≡ placed_in (length work.old) (pairs_of tables.now.keys.bytes.now) (map_of (pairs_of tables.now.keys.bytes.now)) }
{
    let mut starts = [0u32; MAX_KEYS + 1];
    put_starts(&tables.keys, &mut starts);
    let mut guesses = Guesses::new();
    note_all(tables.labels, &mut guesses.places);
    let plan = Plan {
        tables,
        starts: &starts,
        guesses: &guesses,
    };
    let all = KeyGroup {
        plan: &plan,
        span: Group {
            at: KEYS_AT,
            first: 0,
            count: tables.keys.count(),
            depth: 0,
        },
    };
    let slots = slots_in(work.len());
    let mut filled = Work {
        words: work,
        slots,
        free: FreeSlots::of_cleared(slots),
    };
    let mut room = [0u32; ROOM];
    filled.place(1, &all, LENGTH_COUNT, &mut room)
}
