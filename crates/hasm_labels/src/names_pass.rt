// The pass over the names of a text's instructions, and its labels on the way.
ghost use Rattle.std.specs.Prelude.{List, ℕ, ◌<◌};
ghost use Rattle.hasm_labels.specs.Sources.{context_of};
ghost use Rattle.hasm_labels.specs.Keys.{Buckets};
ghost use Rattle.hasm_labels.specs.NamesRead.{NamesRead};

use crate::label_entry::Slot;
use crate::own_labels::{put_taken, start_index};
use crate::source::Source;
use crate::take_line::take_line;
use answers::refusal::Refusal;

// The labels that instructions take: how many, and how many of them are long; whether the long ones are in the index; and the offset of
// the last one that has the text that was asked for.
#[derive(Clone, Copy)]
pub struct Taken {
    pub count: usize,
    pub kept: usize,
    pub indexed: bool,
    pub place: Option<usize>,
}

// Reads the names, stores the long labels that fit, puts them into an index of m heads, where there are any, and looks for the label t.
// Refused is the first name that the sheet does not have (4) or that has too few or too many operands (5), which clears the labels.
pub fn read_names(
    source: Source<'_>,
    labels: &mut [Slot],
    t: &[u8],
    index: &mut [u64],
    m: usize,
) -> Result<Taken, Refusal>
    requires { 0 < m → Buckets m index.old }
    ensures { (bytes ends : List ℕ) → NamesRead (context_of source.entry bytes ends) source.entry.text.now t.now labels.old labels.new m index.new result }
{
    let text = source.text;
    let mut indexed = start_index(index, m);
    let mut p = crate::hold_label::at_start();
    // A line's end says where the next one starts, so the places are followed and not counted.
    let mut at: usize = 0;
    let mut n: usize = 1;
    while at < text.len() {
        let end = hasm_read::lines::line_end(text, at);
        match take_line(source, at, end, n, labels, t, p) {
            Ok(next) => {
                indexed = put_taken(text, index, m, p, next.kept, indexed);
                p = next;
            }
            Err(x) => {
                slices::clearing::clear_labels(labels);
                return Err(x);
            }
        }
        at = end + 1;
        n += 1;
    }
    Ok(Taken {
        count: p.count,
        kept: p.kept,
        indexed,
        place: p.place,
    })
}
