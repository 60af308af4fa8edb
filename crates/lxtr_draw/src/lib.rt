// The drawing of an image, in the language of Graphviz: what is drawn of each slot and each entry, as text in a lent line.
#![tactic(auto)]

ghost use Rattle.std.specs.Prelude.{◌≡◌, ◌+◌, cond, ◌≤◌, ◌<◌};
ghost use Rattle.lxtr_spec.specs.Image.{slot_count, child_count, has_leaf};
ghost use Rattle.lxtr_command_spec.specs.Drawings.{colour, slot_line, step_line, entry_line, is_wrong_slot, is_wrong_entry, is_drawn, slot_text, step_text, list_of, entry_text};
ghost use Rattle.lxtr_laws.specs.Passed.{Whole, Passed};
ghost use Rattle.lxtr_text.specs.Appends.{Appended};

use lxtr_image::Image;
use lxtr_image::nodes::{base_at, has_leaf_at, is_leaf_at, parent_at, value_number_at};
use lxtr_image::sections::{base_word_at, check_word_at, child_at};
use lxtr_spec::Fault;
use lxtr_text::forms::fill;

// Red for a slot or entry that is wrong, dark grey for any other.
#[tactic(auto, unfolding(lxtr_command_spec::specs::Drawings::colour))]
fn colour(wrong: bool) -> u32
    ensures { result ≡ colour wrong }
{
    if wrong { 0xE00000 } else { 0x202020 }
}

// How many borders a slot has: two if its prefix is a key, otherwise one. Like all that is drawn of a slot or an entry, this needs only
// that the bytes passed refusals 1 to 6, so an `Image` is not asked for.
fn borders(image: &[u8], s: u32) -> u32
    requires whole { Whole image.now }
    requires s_bound { s < slot_count image.now }
    ensures { result ≡ cond (has_leaf image.now s) 2 1 }
{
    if has_leaf_at(image, s) { 2 } else { 1 }
}

// Writes the line of a slot, with its base or value and its parent.
fn slot_line(image: &[u8], s: u32, wrong: bool, line: &mut [u8]) -> usize
    requires whole { Whole image.now }
    requires s_bound { s < slot_count image.now }
    ensures { Appended line.old 0 (slot_line image.now s wrong) line.new result }
{
    let tint = colour(wrong);
    let parent = parent_at(image, s);
    if is_leaf_at(image, s) {
        let value = value_number_at(image, s);
        return fill(
            b"  s% [label=\"slot %\\nvalue %\\nparent %\", style=rounded, color=\"#$\", fontcolor=\"#$\"];\n",
            &[s, s, value, parent, tint, tint],
            line,
        );
    }
    let base = base_at(image, s);
    let count = borders(image, s);
    fill(
        b"  s% [label=\"slot %\\nbase %\\nparent %\", peripheries=%, color=\"#$\", fontcolor=\"#$\"];\n",
        &[s, s, base, parent, count, tint, tint],
        line,
    )
}

// Writes the line of the step from slot p to slot s, with its label.
fn step_line(image: &Image, p: u32, s: u32, line: &mut [u8]) -> usize
    requires { p < slot_count image.now }
    ensures { Appended line.old 0 (step_line image.now p s) line.new result }
{
    let code = image.code_to(p, s);
    if code == 0 {
        return fill(b"  s% -> s% [label=\"end\"];\n", &[p, s], line);
    }
    if code <= image.label_count() {
        let label = image.label(code - 1);
        return fill(
            b"  s% -> s% [label=\"@ $\"];\n",
            &[p, s, label, label],
            line,
        );
    }
    fill(b"  s% -> s% [label=\"code %\"];\n", &[p, s, code], line)
}

// Writes the line of entry j of the children, in the list of slot p.
fn entry_line(image: &[u8], p: u32, j: u32, wrong: bool, line: &mut [u8]) -> usize
    requires whole { Whole image.now }
    requires j_bound { j < child_count image.now }
    ensures { Appended line.old 0 (entry_line image.now p j wrong) line.new result }
{
    let tint = colour(wrong);
    let child = child_at(image, j);
    fill(
        b"  s% -> s% [label=\"entry %\", style=dashed, constraint=false, color=\"#$\", fontcolor=\"#$\"];\n",
        &[p, child, j, tint, tint],
        line,
    )
}

// Whether slot s is the one at fault.
#[tactic(auto, unfolding(lxtr_command_spec::specs::Drawings::is_wrong_slot))]
fn is_wrong_slot(fault: Option<Fault>, s: u32) -> bool
    ensures { result ≡ is_wrong_slot fault s }
{
    match fault {
        Some(
            Fault::Slot(t)
            | Fault::Offset(t)
            | Fault::Unlisted(t)
            | Fault::Childless(t)
            | Fault::Unreachable(t),
        ) => s == t,
        Some(Fault::RootBase) => s == 1,
        Some(Fault::Label(_) | Fault::Entry(_, _)) | None => false,
    }
}

// Whether entry j is the one at fault.
#[tactic(auto, unfolding(lxtr_command_spec::specs::Drawings::is_wrong_entry))]
fn is_wrong_entry(fault: Option<Fault>, j: u32) -> bool
    ensures { result ≡ is_wrong_entry fault j }
{
    match fault {
        Some(Fault::Entry(_, i)) => j == i,
        _ => false,
    }
}

// Whether slot s is drawn: it is slot 1, holds something or is at fault.
#[tactic(auto, unfolding(lxtr_spec::specs::Refusals::both_zero, lxtr_command_spec::specs::Drawings::is_drawn))]
fn is_drawn(image: &[u8], fault: Option<Fault>, s: u32) -> bool
    requires whole { Whole image.now }
    requires s_bound { s < slot_count image.now }
    ensures { result ≡ is_drawn image.now fault s }
{
    let empty = (base_word_at(image, s) == 0) & (check_word_at(image, s) == 0);
    (s == 1) | !empty | is_wrong_slot(fault, s)
}

// What is drawn of slot s itself, which may be nothing.
pub fn slot_text(image: &[u8], fault: Option<Fault>, s: u32, line: &mut [u8]) -> usize
    requires whole { Whole image.now }
    requires s_bound { s < slot_count image.now }
    ensures { Appended line.old 0 (slot_text image.now fault s) line.new result }
{
    if !is_drawn(image, fault, s) {
        return 0;
    }
    slot_line(image, s, is_wrong_slot(fault, s), line)
}

// The step to slot s, if its parent is a slot other than 0.
fn step_in(image: &Image, s: u32, line: &mut [u8]) -> usize
    requires { s < slot_count image.now }
    ensures { Appended line.old 0 (step_text image.now s) line.new result }
{
    let p = image.parent(s);
    if p == 0 {
        return 0;
    }
    if image.slot_count() <= p {
        return 0;
    }
    step_line(image, p, s, line)
}

// What is drawn of the step to slot s: nothing if its parent is 0 or not a slot. A slot with a parent holds something, so it is
// drawn too.
pub fn step_text(image: &[u8], s: u32, line: &mut [u8]) -> usize
    requires passed { Passed image.now }
    requires s_bound { s < slot_count image.now }
    ensures { Appended line.old 0 (step_text image.now s) line.new result }
{
    step_in(&Image::new(image), s, line)
}

// The first slot from `from` on whose list ends after entry j.
fn list_in(image: &Image, from: u32, j: u32) -> u32
    requires j_bound { j < child_count image.now }
    requires from_bound { from ≤ list_of image.now j }
    ensures value { result ≡ list_of image.now j }
    ensures next { result ≤ list_of image.now (j + 1) }
{
    let _ = image.bytes(); // the last list ends after all entries, so there is such a slot
    let slots = image.slot_count();
    (from..slots)
        .find(|&p| j < image.offset(p + 1))
        .unwrap_or(slots)
}

// The first slot in whose list entry j lies. The search starts at slot `from`, which is not after it. It is the first slot whose
// list ends after the entry, so only the ends of the lists are compared.
pub fn list_of(image: &[u8], from: u32, j: u32) -> u32
    requires passed { Passed image.now }
    requires j_bound { j < child_count image.now }
    requires from_bound { from ≤ list_of image.now j }
    ensures value { result ≡ list_of image.now j }
    ensures next { result ≤ list_of image.now (j + 1) }
{
    list_in(&Image::new(image), from, j)
}

// What is drawn of entry j of the children; p is the slot in whose list it lies.
pub fn entry_text(image: &[u8], fault: Option<Fault>, p: u32, j: u32, line: &mut [u8]) -> usize
    requires whole { Whole image.now }
    requires j_bound { j < child_count image.now }
    requires p_value { p ≡ list_of image.now j }
    ensures { Appended line.old 0 (entry_text image.now fault j) line.new result }
{
    entry_line(image, p, j, is_wrong_entry(fault, j), line)
}
