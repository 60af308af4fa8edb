// Writes the labels of a key, as text and in hexadecimal. They are given as bytes, four to a label.
ghost use Rattle.std.specs.Prelude.{◌≡◌, ◌∷◌};
ghost use Rattle.lxtr_spec.specs.Labels.{labels_of};
ghost use Rattle.lxtr_spec.specs.Lines.{space, hexadecimal, labels_text};
ghost use Rattle.lxtr_command_spec.specs.Forms.{shown_all, spaced, key_text};
ghost use Rattle.lxtr_text.specs.Writing.{wrote};

use lxtr_bytes::labels::Labels;
use lxtr_text::Line;

pub fn append_text(line: &mut Line<'_>, labels: &[u8])
    ensures { line.new ≡ wrote line.old (shown_all (labels_of labels.now)) }
{
    for label in Labels::of(labels) {
        line.shown(label);
    }
}

// Writes a space and a label in hexadecimal.
#[tactic(auto, using(lxtr_text::specs::Writing::wrote_wrote))]
fn append_label(line: &mut Line<'_>, x: u32)
    ensures { line.new ≡ wrote line.old (space ∷ hexadecimal x) }
{
    line.push(b' ');
    line.hexadecimal(x);
}

// Writes labels in hexadecimal, with a space before each.
pub fn append_labels(line: &mut Line<'_>, labels: Labels<'_>)
    ensures { line.new ≡ wrote line.old (labels_text labels.entry) }
{
    for label in labels {
        append_label(line, label);
    }
}

// Writes all labels in hexadecimal, with a space between.
pub fn append_spaced(line: &mut Line<'_>, labels: &[u8])
    ensures { line.new ≡ wrote line.old (spaced (labels_of labels.now)) }
{
    let mut left = Labels::of(labels);
    if let Some(first) = left.next() {
        line.hexadecimal(first);
        append_labels(line, left);
    }
}

// Writes the text and the labels of a key, and ends the line.
#[tactic(auto, unfolding(lxtr_command_spec::specs::Forms::key_text), using(lxtr_text::specs::Writing::wrote_wrote))]
pub fn append_key(line: &mut Line<'_>, labels: &[u8])
    ensures { line.new ≡ wrote line.old (key_text (labels_of labels.now)) }
{
    append_text(line, labels);
    line.push(b'\t');
    append_spaced(line, labels);
    line.push(b'\n');
}
