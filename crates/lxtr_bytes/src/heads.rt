// The head of a code map, a key list or a listing: version byte 1, then a count in four bytes, big-endian.
ghost use Rattle.std.specs.Prelude.{◌≡◌, ◌∷◌, ◌+◌, ◌≤◌, length};
ghost use Rattle.lxtr_spec.specs.Numbers.{byte_at, be32, be_bytes};
ghost use Rattle.lxtr_laws.specs.Overlays.{over};

use crate::numbers::{be32_at, put_be32};

// The length of a head in bytes.
pub const HEAD_LENGTH: usize = 5;

// The only version.
pub const VERSION: u8 = 1;

// The version of the head at position `at`.
pub fn version_at(s: &[u8], at: usize) -> u8
    requires { at + 5 ≤ length s.now }
    ensures { result ≡ byte_at s.now at }
{
    s[at]
}

// The count of the head at position `at`.
pub fn count_at(s: &[u8], at: usize) -> u32
    requires { at + 5 ≤ length s.now }
    ensures { result ≡ be32 s.now (at + 1) }
{
    be32_at(s, at + 1)
}

// Writes a head with this count at position `at`.
#[tactic(auto, using(lxtr_laws::specs::Overlays::byte_before))]
pub fn put_head(room: &mut [u8], at: usize, count: u32)
    requires { at + 5 ≤ length room.old }
    ensures { room.new ≡ over room.old at (1 ∷ be_bytes count) }
{
    room[at] = VERSION;
    put_be32(room, at + 1, count);
}
