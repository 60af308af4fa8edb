// The command that draws an image as a graph for Graphviz. What is drawn of a slot and of an entry is decided by `lxtr_draw`.
ghost use Rattle.std.specs.Prelude.{◌≡◌, ◌<◌};
ghost use Rattle.lxtr_spec.specs.Image.{slot_count, child_count};
ghost use Rattle.lxtr_command_spec.specs.Drawings.{list_of};

use lxtr_draw::{entry_text, list_of, slot_text, step_text};
use lxtr_header::read;
use lxtr_image::Image;
use lxtr_messages::{end, print_fault, print_refusal};
use lxtr_output::print;
use lxtr_spec::Fault;
use lxtr_spec::refusals::Refusal;
use lxtr_text::LINE_ROOM;

// Prints a slot, and the step to it from its parent.
fn draw_slot(image: &Image, fault: Option<Fault>, s: u32)
    requires { s < slot_count image.now }
{
    let mut line = [0u8; LINE_ROOM];
    let length = slot_text(image.bytes(), fault, s, &mut line);
    print(&line[..length]);
    let size = step_text(image.bytes(), s, &mut line);
    print(&line[..size]);
}

fn draw_slots(image: &Image, fault: Option<Fault>) {
    for s in 0..image.slot_count() {
        draw_slot(image, fault, s);
    }
}

// Prints entry j, which lies in the list of slot p.
fn draw_entry(image: &Image, fault: Option<Fault>, p: u32, j: u32)
    requires j_bound { j < child_count image.now }
    requires p_value { p ≡ list_of image.now j }
{
    let mut line = [0u8; LINE_ROOM];
    let length = entry_text(image.bytes(), fault, p, j, &mut line);
    print(&line[..length]);
}

// The search for the slot of an entry starts at the slot of the entry before it.
fn draw_entries(image: &Image, fault: Option<Fault>) {
    let mut p: u32 = 0;
    for j in 0..image.child_count() {
        p = list_of(image.bytes(), p, j);
        draw_entry(image, fault, p, j);
    }
}

// Prints what is refused, and where, above the graph.
fn draw_refusal(refusal: Refusal, fault: Option<Fault>) {
    print(b"  labelloc=t;\n  fontcolor=\"#E00000\";\n  label=\"");
    print_refusal(refusal);
    if let Some(place) = fault {
        print(b"\\n");
        print_fault(place);
    }
    print(b"\";\n");
}

// The last line begins with #, so that Graphviz ignores it.
pub fn draw(image: &[u8]) {
    let fault = lxtr_fault::fault(image);
    print(b"digraph lxtr {\n  rankdir=LR;\n  node [shape=box];\n");
    if let Ok(opened) = read(image) {
        draw_slots(&opened, fault);
        draw_entries(&opened, fault);
    }
    match lxtr_check::check(image) {
        Ok(_) => {
            print(b"}\n");
            end(b"#accepted");
        }
        Err(refusal) => {
            draw_refusal(refusal, fault);
            print(b"}\n");
            end(b"#refused");
        }
    }
}
