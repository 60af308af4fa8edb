// Builds LXTR images from key lists. Any caller may use `build`; the other functions are its parts.
#![tactic(auto)]

ghost use Rattle.std.specs.Prelude.{◌≡◌, length, replicate};
ghost use Rattle.lxtr_spec.specs.Answers.{refusal_of, answer_or};
ghost use Rattle.lxtr_spec.specs.Builds.{from_keys, build_of};
ghost use Rattle.lxtr_build_laws.specs.Work.{Cleared};
ghost use Rattle.lxtr_write.specs.WriteOutcomes.{Answers};
ghost use Rattle.lxtr_build.specs.BuildReturns.{labels_outcome, placed_outcome};

use lxtr_codes::tables::Tables;
use lxtr_codes::{TABLE_SIZE, code_map};
use lxtr_keys::list::KeyList;
use lxtr_place::place_all;
use lxtr_spec::refusals::Refusal;
use lxtr_write::put_image;

// The fewest words of work: two for each of the slots 0 and 1.
const MIN_WORDS: usize = 4;

// Sets every word to 0.
fn clear(work: &mut [u32])
    ensures { work.new ≡ replicate (length work.old) 0 }
{
    work.fill(0);
}

// Builds from keys whose code map is known: places them, and writes the image. That the work is all zero is no type: it holds
// until placing begins, and the same words are read and cleared afterwards.
fn build_mapped(tables: &Tables, work: &mut [u32], out: &mut [u8]) -> Result<u32, Refusal>
    requires { Cleared work.old }
    ensures { Answers (placed_outcome tables.now.keys.bytes.now work.old out.old) out.old result out.new }
{
    place_all(tables, work).ok_or(Refusal::TooFewSlots)?;
    put_image(out, work, tables)
}

// Builds from keys that are not refused. The tables have room for one label more than a code map may list.
fn build_keys(keys: KeyList, work: &mut [u32], out: &mut [u8]) -> Result<u32, Refusal>
    requires { Cleared work.old }
    ensures { Answers (labels_outcome keys.entry.bytes.now work.old out.old) out.old result out.new }
{
    let mut labels = [0u32; TABLE_SIZE];
    let mut codes = [0u32; TABLE_SIZE];
    let mut order = [0u32; TABLE_SIZE];
    let count = code_map(&keys, &mut labels, &mut codes, &mut order)?;
    let tables = Tables {
        keys,
        labels: &labels[..count],
        codes: &codes[..count],
        order: &order[..count],
    };
    build_mapped(&tables, work, out)
}

// Builds with work that is all zero, and leaves the work as placing filled it.
fn build_cleared(keys: &[u8], work: &mut [u32], out: &mut [u8]) -> Result<u32, Refusal>
    requires { Cleared work.old }
    ensures { Answers (from_keys (length work.old) (length out.old) keys.now) out.old result out.new }
{
    build_keys(KeyList::read(keys)?, work, out)
}

// Builds the image of a key list at the front of the output. Returns its length, or a refusal, which leaves the output untouched.
// The work is zero afterwards, except after refusal 21, which leaves it.
pub fn build(keys: &[u8], work: &mut [u32], out: &mut [u8]) -> Result<u32, Refusal>
    ensures { record { answer = record { refusal = refusal_of result; length = answer_or 0 result }; output = out.new; work = work.new } ≡ build_of keys.now work.old out.old }
{
    if work.len() < MIN_WORDS {
        return Err(Refusal::WorkTooSmall);
    }
    clear(work);
    let built = build_cleared(keys, work, out);
    clear(work);
    built
}
