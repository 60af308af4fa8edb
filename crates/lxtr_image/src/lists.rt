// The children lists: the list of slot p has the children from offset p up to, but not including, offset p + 1.
ghost use Rattle.std.specs.Prelude.{◌≡◌, ◌<◌, ◌≤◌};
ghost use Rattle.lxtr_laws.specs.Passed.{Whole};
ghost use Rattle.lxtr_spec.specs.Image.{slot_count, child_count, offset, child, list_width};

use crate::Image;
use crate::sections::{child_at, offset_at};

// The width of the list of slot p; 0 if its offsets fall.
#[tactic(auto, unfolding(lxtr_spec::specs::Image::list_width))]
pub fn list_width_at(image: &[u8], p: u32) -> u32
    requires whole { Whole image.now }
    requires p_bound { p < slot_count image.now }
    ensures { result ≡ list_width image.now p }
{
    offset_at(image, p + 1).saturating_sub(offset_at(image, p))
}

impl<'a> Image<'a> {
    pub fn offset(&self, p: u32) -> u32
        requires { p ≤ slot_count self.now }
        ensures { result ≡ offset self.now p }
    {
        offset_at(self.bytes, p)
    }

    pub fn child(&self, j: u32) -> u32
        requires { j < child_count self.now }
        ensures { result ≡ child self.now j }
    {
        child_at(self.bytes, j)
    }

    pub fn list_width(&self, p: u32) -> u32
        requires { p < slot_count self.now }
        ensures { result ≡ list_width self.now p }
    {
        list_width_at(self.bytes, p)
    }
}
