// Numbers put into lent words: the matches of prefixes, as alternating length and value; or one number.
ghost use Rattle.std.specs.Prelude.{◌≡◌, [], ◌∷◌};
ghost use Rattle.lxtr_spec.specs.HostNumbers.{alternately, at_front};

use lxtr_spec::LENGTH_COUNT;

// The number of words for all lengths and values.
const WORD_COUNT: usize = 2 * LENGTH_COUNT;

// Writes lengths and values to the front of `places`, as many as fit. Words after them stay.
pub fn put_places(lengths: &[u32; LENGTH_COUNT], values: &[u32; LENGTH_COUNT], places: &mut [u32])
    ensures { places.new ≡ at_front (alternately lengths.now values.now) places.old }
{
    let count = WORD_COUNT.min(places.len());
    let pairs = count / 2;
    for i in 0..pairs {
        places[2 * i] = lengths[i];
        places[2 * i + 1] = values[i];
    }
    // an odd number of words ends with a length
    if 2 * pairs < count {
        places[2 * pairs] = lengths[pairs];
    }
}

// Writes a number to word 0 of `words`, if there is one. The others stay.
#[tactic(auto, using(crate::specs::PlaceWords::no_word, crate::specs::PlaceWords::first_word))]
pub fn put_first(x: u32, words: &mut [u32])
    ensures { words.new ≡ at_front (x ∷ []) words.old }
{
    if words.len() == 0 {
        return;
    }
    words[0] = x;
}
