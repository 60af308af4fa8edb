// The three numbers of the header, where each part of the image starts, and reading the parts of bytes of which less is known than of an
// `Image`. The header's tests call these one after the other, and a drawing reads slots and entries by them: each needs only what it
// says, so there is no type for what is known in between.
ghost use Rattle.std.specs.Prelude.{◌≡◌, ◌<◌, ◌≤◌, length};
ghost use Rattle.lxtr_spec.specs.Image.{header_length, slot_count, child_count, map_length, offsets_at, children_at, map_at, base_word, check_word, offset, child, map_version, label_count};
ghost use Rattle.lxtr_laws.specs.Passed.{Sized, Whole};

use lxtr_bytes::heads::{count_at, version_at};
use lxtr_bytes::numbers::le32_at;

pub const HEADER_LENGTH: usize = 24;

// N: the number of slots.
#[tactic(auto, unfolding(lxtr_spec::specs::Image::slot_count))]
pub fn slot_count(image: &[u8]) -> u32
    requires { header_length ≤ length image.now }
    ensures { result ≡ slot_count image.now }
{
    le32_at(image, 8)
}

// E: the number of children.
#[tactic(auto, unfolding(lxtr_spec::specs::Image::child_count))]
pub fn child_count(image: &[u8]) -> u32
    requires { header_length ≤ length image.now }
    ensures { result ≡ child_count image.now }
{
    le32_at(image, 12)
}

// M: the length of the code map in bytes.
#[tactic(auto, unfolding(lxtr_spec::specs::Image::map_length))]
pub fn map_length(image: &[u8]) -> u32
    requires { header_length ≤ length image.now }
    ensures { result ≡ map_length image.now }
{
    le32_at(image, 16)
}

pub fn offsets_at(image: &[u8]) -> usize
    requires { Sized image.now }
    ensures { result ≡ offsets_at image.now }
{
    HEADER_LENGTH + 8 * slot_count(image) as usize
}

pub fn children_at(image: &[u8]) -> usize
    requires { Sized image.now }
    ensures { result ≡ children_at image.now }
{
    offsets_at(image) + 4 * (slot_count(image) as usize + 1)
}

pub fn map_at(image: &[u8]) -> usize
    requires { Sized image.now }
    ensures { result ≡ map_at image.now }
{
    children_at(image) + 4 * child_count(image) as usize
}

// The two words of slot s.
#[tactic(auto, unfolding(lxtr_spec::specs::Image::base_word))]
pub fn base_word_at(image: &[u8], s: u32) -> u32
    requires whole { Whole image.now }
    requires s_bound { s < slot_count image.now }
    ensures { result ≡ base_word image.now s }
{
    le32_at(image, HEADER_LENGTH + 8 * s as usize)
}

#[tactic(auto, unfolding(lxtr_spec::specs::Image::check_word))]
pub fn check_word_at(image: &[u8], s: u32) -> u32
    requires whole { Whole image.now }
    requires s_bound { s < slot_count image.now }
    ensures { result ≡ check_word image.now s }
{
    le32_at(image, HEADER_LENGTH + 8 * s as usize + 4)
}

// Offset p, where the list of slot p starts.
#[tactic(auto, unfolding(lxtr_spec::specs::Image::offset))]
pub fn offset_at(image: &[u8], p: u32) -> u32
    requires whole { Whole image.now }
    requires p_bound { p ≤ slot_count image.now }
    ensures { result ≡ offset image.now p }
{
    le32_at(image, offsets_at(image) + 4 * p as usize)
}

// Entry j of the children.
#[tactic(auto, unfolding(lxtr_spec::specs::Image::child))]
pub fn child_at(image: &[u8], j: u32) -> u32
    requires whole { Whole image.now }
    requires j_bound { j < child_count image.now }
    ensures { result ≡ child image.now j }
{
    le32_at(image, children_at(image) + 4 * j as usize)
}

#[tactic(auto, unfolding(lxtr_spec::specs::Image::map_version))]
pub fn map_version(image: &[u8]) -> u8
    requires whole { Whole image.now }
    requires bound { 5 ≤ map_length image.now }
    ensures { result ≡ map_version image.now }
{
    version_at(image, map_at(image))
}

// How many labels are listed.
#[tactic(auto, unfolding(lxtr_spec::specs::Image::label_count))]
pub fn label_count(image: &[u8]) -> u32
    requires whole { Whole image.now }
    requires bound { 5 ≤ map_length image.now }
    ensures { result ≡ label_count image.now }
{
    count_at(image, map_at(image))
}
