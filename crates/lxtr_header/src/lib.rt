// Refusals 1 to 8 of an image, for any bytes: a test for each fault, then the first refusal that holds. Any caller may use `read`:
// bytes that none of them refuses are an `Image`.
#![tactic(auto)]

ghost use Rattle.std.specs.Prelude.{◌≡◌, ◌≤◌, length, IfOk};
ghost use Rattle.lxtr_spec.specs.Image.{header_length};
ghost use Rattle.lxtr_spec.specs.Refusals.{magic_differs, version_wrong, reserved_set, sizes_wrong, length_wrong, map_wrong, offset_ends_wrong, refuse_if, header_refusal};
ghost use Rattle.lxtr_spec.specs.Answers.{refusal_of};
ghost use Rattle.lxtr_laws.specs.Passed.{Sized, Whole};

use lxtr_bytes::heads::{HEAD_LENGTH, VERSION};
use lxtr_bytes::numbers::le32_at;
use lxtr_image::Image;
use lxtr_image::sections::{
    HEADER_LENGTH, child_count, label_count, map_at, map_length, map_version, offset_at, slot_count,
};
use lxtr_spec::refusals::Refusal;
use lxtr_spec::{MAX_LISTED, MAX_SLOTS, MIN_SLOTS};

// The byte string at the front of each image.
const MAGIC: [u8; 4] = *b"LXTR";

// 2: first four bytes differ from `LXTR`. Both are read as one number, so that the four bytes are compared at once.
fn magic_differs(image: &[u8]) -> bool
    requires { header_length ≤ length image.now }
    ensures { result ≡ magic_differs image.now }
{
    u32::from_le_bytes([image[0], image[1], image[2], image[3]]) != u32::from_le_bytes(MAGIC)
}

// 3: version is not 3.
#[tactic(auto, unfolding(lxtr_spec::specs::Image::version, lxtr_spec::specs::Refusals::version_wrong))]
fn version_wrong(image: &[u8]) -> bool
    requires { header_length ≤ length image.now }
    ensures { result ≡ version_wrong image.now }
{
    image[4] != 3
}

// 4: a reserved byte is not 0. The bytes are read as two 32-bit numbers; the first of them begins with the version.
fn reserved_set(image: &[u8]) -> bool
    requires { header_length ≤ length image.now }
    ensures { result ≡ reserved_set image.now }
{
    let after_version = le32_at(image, 4) != image[4] as u32;
    let at_end = le32_at(image, 20) != 0;
    after_version | at_end
}

// 5: N outside 2 to 65,536, or E above N - 2.
#[tactic(auto, unfolding(lxtr_spec::specs::Refusals::sizes_wrong))]
fn sizes_wrong(image: &[u8]) -> bool
    requires { header_length ≤ length image.now }
    ensures { result ≡ sizes_wrong image.now }
{
    let slots = slot_count(image) as usize;
    let children = child_count(image) as usize;
    if slots < MIN_SLOTS {
        return true;
    }
    (MAX_SLOTS < slots) | (slots - 2 < children)
}

// 6: length differs from the sum.
#[tactic(auto, unfolding(lxtr_spec::specs::Refusals::length_wrong))]
fn length_wrong(image: &[u8]) -> bool
    requires { Sized image.now }
    ensures { result ≡ length_wrong image.now }
{
    image.len() != map_at(image) + map_length(image) as usize
}

// 7: M below 5, map version not 1, L above 4,095, or M not 5 + 4L.
#[tactic(auto, unfolding(lxtr_spec::specs::Refusals::map_wrong))]
fn map_wrong(image: &[u8]) -> bool
    requires { Whole image.now }
    ensures { result ≡ map_wrong image.now }
{
    let size = map_length(image) as usize;
    if size < HEAD_LENGTH {
        return true;
    }
    let labels = label_count(image) as usize;
    (map_version(image) != VERSION) | (MAX_LISTED < labels) | (size != HEAD_LENGTH + 4 * labels)
}

// 8: first offset not 0 or last not E.
#[tactic(auto, unfolding(lxtr_spec::specs::Refusals::offset_ends_wrong))]
fn offset_ends_wrong(image: &[u8]) -> bool
    requires { Whole image.now }
    ensures { result ≡ offset_ends_wrong image.now }
{
    (offset_at(image, 0) != 0) | (offset_at(image, slot_count(image)) != child_count(image))
}

// The first of refusals 6 to 8 that holds, for bytes that passed 1 to 5. These are a function of their own because the compiler does
// not inline a test that follows six others.
fn check_parts(image: &[u8]) -> Result<(), Refusal>
    requires { Sized image.now }
    ensures { refusal_of result ≡ refuse_if (length_wrong image.now) 6 (refuse_if (map_wrong image.now) 7 (refuse_if (offset_ends_wrong image.now) 8 0)) }
{
    if length_wrong(image) {
        return Err(Refusal::WrongImageLength);
    }
    if map_wrong(image) {
        return Err(Refusal::WrongMap);
    }
    if offset_ends_wrong(image) {
        return Err(Refusal::WrongOffsetEnds);
    }
    Ok(())
}

// The image, or the first of refusals 1 to 8 that holds, for any bytes.
pub fn read(image: &[u8]) -> Result<Image<'_>, Refusal>
    ensures refusal { refusal_of result ≡ header_refusal image.now }
    ensures bytes { IfOk result (λ i. i ≡ image.now) }
{
    if image.len() < HEADER_LENGTH {
        return Err(Refusal::ImageTooShort);
    }
    if magic_differs(image) {
        return Err(Refusal::NotLxtr);
    }
    if version_wrong(image) {
        return Err(Refusal::WrongVersion);
    }
    if reserved_set(image) {
        return Err(Refusal::ReservedSet);
    }
    if sizes_wrong(image) {
        return Err(Refusal::WrongSizes);
    }
    check_parts(image)?;
    Ok(Image::new(image))
}
