// The work of an image: as placing filled it, with what the image takes of it.
ghost use Rattle.lxtr_write.specs.SlotCounting.{Slots};

// Its words, the number of slots of the image, and the number of labels that the code map lists.
#[derive(Clone, Copy)]
pub struct Filled<'a> {
    pub work: &'a [u32],
    pub slots: usize,
    pub last: u32,
    ghost room: { Slots work.now slots },
}
