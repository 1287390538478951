// Labels taken by instructions.
ghost use Rattle.std.specs.Prelude.{◌≡◌, [], ◌∷◌, ◌+◌, ◌<◌, set};
ghost use Rattle.lists.specs.Choice.{pick};
ghost use Rattle.hasm_labels.specs.LongLabels.{is_long};
ghost use Rattle.hasm_labels.specs.Holding.{Small, at_start, Held};

use crate::label_entry::{LabelPlace, Slot, put_slot};
use slices::compare::same_bytes;

// `L` and nine digits. A longer text may be a label that is looked up; a shorter one is not, but for `L` alone.
pub(crate) const SHORT_LABEL: usize = 10;

// Where a label's text stands.
#[derive(Clone, Copy)]
pub struct LabelPart {
    pub start: usize,
    pub size: usize,
}

// How far the pass over a text's lines has come: the label that waits; how many labels were taken, and how many of them are long; the
// offset of the next instruction; and the offset of the last taken label that has the text that is asked for.
#[derive(Clone, Copy)]
pub struct Progress {
    pub waiting: Option<LabelPart>,
    pub count: usize,
    pub kept: usize,
    pub offset: usize,
    pub place: Option<usize>,
}

// The pass in front of the first line.
pub(crate) fn at_start() -> Progress
    ensures { result ≡ at_start }
{
    Progress {
        waiting: None,
        count: 0,
        kept: 0,
        offset: 0,
        place: None,
    }
}

// Stores a label whose text is s behind the `kept` ones that are stored, if it is long. Answers how many long ones there are.
#[tactic(auto, using(crate::proofs::LongLaws::is_long_lem, crate::proofs::LongLaws::is_short))]
fn keep_label(labels: &mut [Slot], s: &[u8], l: LabelPlace, kept: usize) -> usize
    requires { (l.start < 4294967296) × (l.size < 4294967296) × (l.offset < 4294967296) × (kept < 4294967295) }
    ensures { (result ≡ pick (is_long s.now) (kept + 1) kept) × (labels.new ≡ pick (is_long s.now) (set labels.old kept (l.start ∷ l.size ∷ l.offset ∷ [])) labels.old) }
{
    if s.len() <= SHORT_LABEL {
        return kept;
    }
    put_slot(labels, kept, l);
    kept + 1
}

// The next instruction takes the label that waits.
pub(crate) fn hold_label(text: &[u8], labels: &mut [Slot], t: &[u8], p: Progress) -> Progress
    requires { Small p }
    ensures { Held text.now t.now labels.old p labels.new result }
{
    let Some(part) = p.waiting else {
        return p;
    };
    let LabelPart { start, size } = part;
    let offset = p.offset;
    let s = slices::part::part_of(text, start, size);
    let l = LabelPlace {
        start,
        size,
        offset,
    };
    let kept = keep_label(labels, s, l, p.kept);
    let place = if same_bytes(s, t) {
        Some(offset)
    } else {
        p.place
    };
    Progress {
        waiting: None,
        count: p.count + 1,
        kept,
        offset,
        place,
    }
}
