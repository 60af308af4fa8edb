// The state as bytes, as a program in C holds it: the number of kept bytes, the kept bytes, zeros.
ghost use Rattle.std.specs.Prelude.{◌≡◌};
ghost use Rattle.lxtr_spec.specs.HostNumbers.{at_front};
ghost use Rattle.romaji_spec.specs.Typing.{state_of};
ghost use Rattle.romaji_spec.specs.HostStates.{state_bytes, kept_bytes};

use crate::texts::Text;
use romaji_spec::{MAX_KEPT, State};

// Reads the state. Bytes that no call left are read as far as they go.
pub fn read_state(bytes: &[u8]) -> State
    ensures { result ≡ state_of (kept_bytes bytes.now) }
{
    let [count, kept @ ..] = bytes else {
        // there is nothing to keep
        return Text::new(&[], bytes).rest(0);
    };
    let count = (*count as usize).min(MAX_KEPT).min(kept.len());
    Text::new(&[], &kept[..count]).rest(0)
}

// Writes the state to the front of `bytes`, as far as it fits.
pub fn put_state(state: State, bytes: &mut [u8])
    ensures { bytes.new ≡ at_front (state_bytes state) bytes.old }
{
    if bytes.is_empty() {
        return;
    }
    let count = MAX_KEPT.min(bytes.len() - 1);
    bytes[0] = state.count;
    bytes[1..count + 1].copy_from_slice(&state.kept[..count]);
}
