// Writes the image of the filled work to the front of the output: header, nodes, offsets, children and code map; or refuses if the
// output is too short. `put_image` is for the builder, which fills the work.
#![tactic(auto)]

mod filled; // the filled work
mod counting; // how many slots the image has, and how many children
mod links; // which child comes after which
mod lists; // the offsets and the children lists

ghost use Rattle.std.specs.Prelude.{◌≡◌, ◌+◌, ◌*◌, ◌≤◌, ◌<◌, length, take, get_or};
ghost use Rattle.lxtr_spec.specs.Numbers.{le_words, be_words};
ghost use Rattle.lxtr_spec.specs.Image.{header_length, magic, nodes_at};
ghost use Rattle.lxtr_spec.specs.Builds.{header_bytes, map_bytes, image_in, slots_used, slots_in, with_room};
ghost use Rattle.lxtr_laws.specs.Overlays.{over};
ghost use Rattle.lxtr_build_laws.specs.CodeTables.{picked};
ghost use Rattle.lxtr_write.specs.SectionWriting.{Counted, size_of, ImageReady};
ghost use Rattle.lxtr_write.specs.WriteOutcomes.{Answers};

use crate::counting::{slots_used, taken_count};
use crate::filled::Filled;
use lxtr_bytes::heads::{HEAD_LENGTH, put_head};
use lxtr_bytes::numbers::{put_be32, put_le32};
use lxtr_codes::tables::Tables;
use lxtr_fit::slots::slots_in;
use lxtr_image::sections::HEADER_LENGTH;
use lxtr_spec::refusals::Refusal;

// Writes the four bytes `LXTR`.
fn put_magic(out: &mut [u8])
    requires { header_length ≤ length out.old }
    ensures { out.new ≡ over out.old 0 magic }
{
    out[..4].copy_from_slice(b"LXTR");
}

// Writes the header: `LXTR`, version 3 and three zeros, then N, E and M, then four zeros.
#[tactic(auto, using(crate::specs::SectionWriting::header_put))]
fn put_header(out: &mut [u8], slots: u32, children: u32, map: u32)
    requires { header_length ≤ length out.old }
    ensures { out.new ≡ over out.old 0 (header_bytes slots children map) }
{
    put_magic(out);
    put_le32(out, 4, 3);
    put_le32(out, 8, slots);
    put_le32(out, 12, children);
    put_le32(out, 16, map);
    put_le32(out, 20, 0);
}

// The label at place j of the code map.
fn listed_label(tables: &Tables, j: usize) -> u32
    requires { j < length tables.now.order.now }
    ensures { result ≡ get_or (picked tables.now.labels.now tables.now.order.now) j 0 }
{
    tables.labels[tables.order[j] as usize]
}

// Writes the labels in code order, starting at position `at`.
fn put_labels(out: &mut [u8], at: usize, tables: &Tables)
    requires { at + 4 * length tables.now.order.now ≤ length out.old }
    ensures { out.new ≡ over out.old at (be_words (picked tables.now.labels.now tables.now.order.now)) }
{
    for j in 0..tables.order.len() {
        put_be32(out, at + 4 * j, listed_label(tables, j));
    }
}

// Writes the code map, starting at position `at`.
fn put_map(out: &mut [u8], at: usize, tables: &Tables)
    requires { at + 5 + 4 * length tables.now.order.now ≤ length out.old }
    ensures { out.new ≡ over out.old at (map_bytes (picked tables.now.labels.now tables.now.order.now)) }
{
    put_head(out, at, tables.order.len() as u32);
    put_labels(out, at + HEAD_LENGTH, tables);
}

impl Filled<'_> {
    // Writes the two words of each slot, after the header.
    fn put_nodes(&self, out: &mut [u8])
        requires { nodes_at + 8 * self.now.slots ≤ length out.old }
        ensures { out.new ≡ over out.old nodes_at (le_words (take (2 * self.now.slots) self.now.work.now)) }
    {
        for i in 0..2 * self.slots {
            put_le32(out, HEADER_LENGTH + 4 * i, self.work[i]);
        }
    }

    // Writes the image, whose slots have `children` children in all.
    fn put_sections(&self, out: &mut [u8], children: usize, tables: &Tables)
        requires last_value { self.now.last ≡ length tables.now.order.now }
        requires counted { Counted self.now.work.now self.now.slots children (length tables.now.order.now) }
        requires order_in_bounds { size_of self.now.slots children (length tables.now.order.now) ≤ length out.old }
        ensures { out.new ≡ over out.old 0 (image_in self.now.work.now self.now.slots (picked tables.now.labels.now tables.now.order.now)) }
    {
        let offsets_at = HEADER_LENGTH + 8 * self.slots;
        let map_at = offsets_at + 4 * (self.slots + 1) + 4 * children;
        put_header(
            out,
            self.slots as u32,
            children as u32,
            HEAD_LENGTH as u32 + 4 * self.last,
        );
        self.put_nodes(out);
        self.put_lists(out, offsets_at);
        put_map(out, map_at, tables);
    }

    // The same, or refusal 23 if the output is shorter than the image.
    fn put_fitting(&self, out: &mut [u8], children: usize, tables: &Tables) -> Result<u32, Refusal>
        requires last_value { self.now.last ≡ length tables.now.order.now }
        requires counted { Counted self.now.work.now self.now.slots children (length tables.now.order.now) }
        ensures { Answers (with_room (length out.old) (image_in self.now.work.now self.now.slots (picked tables.now.labels.now tables.now.order.now))) out.old result out.new }
    {
        let map_length = HEAD_LENGTH + 4 * tables.order.len();
        let size = HEADER_LENGTH
            + 8 * self.slots
            + 4 * (self.slots + 1)
            + 4 * children
            + map_length;
        if out.len() < size {
            return Err(Refusal::OutTooSmall);
        }
        self.put_sections(out, children, tables);
        Ok(size as u32)
    }
}

// Writes the image of the filled work, or gives refusal 23. Each taken slot from 2 up is the child of exactly one slot, so E is
// the number of these slots.
pub fn put_image(out: &mut [u8], work: &[u32], tables: &Tables) -> Result<u32, Refusal>
    requires { ImageReady work.now tables.now.labels.now tables.now.order.now }
    ensures { Answers (with_room (length out.old) (image_in work.now (slots_used work.now (slots_in (length work.now))) (picked tables.now.labels.now tables.now.order.now))) out.old result out.new }
{
    let slots = slots_used(work, slots_in(work.len()));
    let children = taken_count(work, slots);
    let filled = Filled {
        work,
        slots,
        last: tables.order.len() as u32,
    };
    filled.put_fitting(out, children, tables)
}
