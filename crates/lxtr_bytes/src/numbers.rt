// 32-bit numbers as four bytes, in either byte order.
ghost use Rattle.std.specs.Prelude.{◌≡◌, [], ◌∷◌, ◌+◌, ◌≤◌, eqb, length};
ghost use Rattle.lxtr_spec.specs.Numbers.{le32, be32, le_bytes, be_bytes};
ghost use Rattle.lxtr_laws.specs.Overlays.{over};

// The little-endian number at position `at`.
#[tactic(auto, unfolding(lxtr_spec::specs::Numbers::le32))]
pub fn le32_at(s: &[u8], at: usize) -> u32
    requires { at + 4 ≤ length s.now }
    ensures { result ≡ le32 s.now at }
{
    u32::from_le_bytes([s[at], s[at + 1], s[at + 2], s[at + 3]])
}

// The big-endian number at position `at`. The compiler makes one load and one instruction that swaps the bytes, and compares two
// such numbers without swapping.
pub fn be32_at(s: &[u8], at: usize) -> u32
    requires { at + 4 ≤ length s.now }
    ensures { result ≡ be32 s.now at }
{
    le32_at(s, at).swap_bytes()
}

// Whether the big-endian number at position `at` is x. x is swapped instead of the bytes, so that a loop that compares many places
// with one number swaps once.
pub fn be32_equals(s: &[u8], at: usize, x: u32) -> bool
    requires { at + 4 ≤ length s.now }
    ensures { result ≡ eqb (be32 s.now at) x }
{
    le32_at(s, at) == x.swap_bytes()
}

// Writes four bytes at position `at`.
fn put_four(room: &mut [u8], at: usize, a: u8, b: u8, c: u8, d: u8)
    requires { at + 4 ≤ length room.old }
    ensures { room.new ≡ over room.old at (a ∷ b ∷ c ∷ d ∷ []) }
{
    room[at] = a;
    room[at + 1] = b;
    room[at + 2] = c;
    room[at + 3] = d;
}

// Writes a number as four bytes at position `at`, the lowest first.
#[tactic(auto, unfolding(lxtr_spec::specs::Numbers::le_bytes))]
pub fn put_le32(room: &mut [u8], at: usize, x: u32)
    requires { at + 4 ≤ length room.old }
    ensures { room.new ≡ over room.old at (le_bytes x) }
{
    let [a, b, c, d] = x.to_le_bytes();
    put_four(room, at, a, b, c, d);
}

// The same, the highest first.
#[tactic(auto, unfolding(lxtr_spec::specs::Numbers::be_bytes))]
pub fn put_be32(room: &mut [u8], at: usize, x: u32)
    requires { at + 4 ≤ length room.old }
    ensures { room.new ≡ over room.old at (be_bytes x) }
{
    let [a, b, c, d] = x.to_be_bytes();
    put_four(room, at, a, b, c, d);
}
