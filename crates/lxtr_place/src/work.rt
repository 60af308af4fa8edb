// The lent work, whose words 2s and 2s + 1 are base and check of slot s.
ghost use Rattle.lxtr_fit.specs.FreeMaps.{FreeMap};
ghost use Rattle.lxtr_place.specs.Facts.{FreeMap-prop};

use lxtr_fit::free_map::FreeSlots;

// Its words, the number of its slots, and the map of those that are free.
#[derive(Drop)]
pub struct Work<'a> {
    pub words: &'a mut [u32],
    pub slots: usize,
    pub free: FreeSlots,
    ghost map: { FreeMap slots words.now free.map free.lowest } by { FreeMap-prop slots words.now free.map free.lowest },
}
