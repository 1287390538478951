// The instructions of a text whose names are good, with its long labels indexed on the stack.
ghost use Rattle.std.specs.Prelude.{List, ℕ, ◌≤◌, ◌<◌};
ghost use Rattle.hasm_labels.specs.Keys.{Buckets};
ghost use Rattle.hasm_labels.specs.Labelled.{Labelled};
ghost use Rattle.hasm_labels.specs.Sources.{context_of};
ghost use Rattle.assemble.specs.Contexts.{bytes_of};
ghost use Rattle.assemble.specs.Bodies.{BytesPut};
ghost use Rattle.assemble.specs.Passes.{NamesGood};

use crate::body::put_instructions;
use crate::context::Context;
use answers::refusal::Refusal;
use hasm_labels::label_entry::Slot;
use hasm_labels::label_index::index_slots;
use hasm_labels::label_target::{Known, Labels};
use hasm_labels::names_pass::Taken;
use hasm_labels::source::Source;
use hasm_labels::text_labels::index_text;
use slices::space::zeroed;
use strings::text_index::TextIndex;

// Few long labels have a small index, as clearing a large one takes longer than a short text.
const FEW_LABELS: usize = 224;

const FEW_HEADS: usize = 32;

const FEW_INDEX: usize = FEW_HEADS + FEW_LABELS;

// What the stack has room for below 1 MiB, beside the texts' index: with its instruction a long label takes 15 bytes of the text at
// least, so that there are at most 69,905, and there is room for them with the fewer heads.
const ALL_INDEX: usize = 71_953;

const MANY_HEADS: usize = 8_192;

const LEAST_HEADS: usize = 2_048;

// How many heads the large index has for so many labels: as many as keep the chains short, or as leave room for the labels.
fn heads_for(count: usize) -> usize
    ensures { (0 < result) × (result ≤ 8192) }
{
    if count <= ALL_INDEX - MANY_HEADS {
        return MANY_HEADS;
    }
    LEAST_HEADS
}

// Indexes the long labels, which the lent entries hold where they fit, and the index itself where they do not. An index that lacks
// some of them does not serve.
fn index_labels(
    source: Source<'_>,
    slots: &[Slot],
    taken: Taken,
    index: &mut [u64],
    heads: usize,
) -> Known
    requires buckets { Buckets heads index.old }
    requires names_good { NamesGood source taken slots.now }
    ensures { (bytes ends : List ℕ) → Labelled (context_of source.entry bytes ends) source.entry.text.now slots.now index.new result }
{
    let owned = slots.len() < taken.kept;
    let whole = if owned {
        index_text(source, index, heads)
    } else {
        index_slots(source.text, slots, taken.kept, index, heads)
    };
    Known {
        heads: if whole { heads } else { 0 },
        owned,
        place: taken.place,
    }
}

// Indexes the labels in so many words, of which some are heads, and writes the instructions.
fn put_listed<'a, const WORDS: usize>(
    texts: TextIndex<'a>,
    source: Source<'a>,
    slots: &'a [Slot],
    taken: Taken,
    heads: usize,
    out: &mut [u8],
) -> Result<usize, Refusal>
    requires some_heads { (0 < heads) × (heads ≤ WORDS) × (WORDS < 1048576) }
    requires names_good { NamesGood source taken slots.now }
    ensures { BytesPut (bytes_of (context_of source.entry texts.entry.strings.bytes.now texts.entry.strings.ends.now) source.entry.text.now) out.old out.new result }
{
    let mut index = zeroed::<u64, WORDS>(0);
    let known = index_labels(source, slots, taken, &mut index, heads);
    let labels = Labels {
        source,
        slots,
        index: &index,
        known,
    };
    let mut work = zeroed::<u8, { limits::LINE_LIMIT }>(0);
    put_instructions(Context { texts, labels }, &mut work, out)
}

// Writes the instructions of a text whose lines and names are good.
pub(crate) fn put_labelled<'a>(
    texts: TextIndex<'a>,
    source: Source<'a>,
    slots: &'a [Slot],
    taken: Taken,
    out: &mut [u8],
) -> Result<usize, Refusal>
    requires { NamesGood source taken slots.now }
    ensures { BytesPut (bytes_of (context_of source.entry texts.entry.strings.bytes.now texts.entry.strings.ends.now) source.entry.text.now) out.old out.new result }
{
    // Not with_words, which chooses by the words alone: the two sizes have different numbers of heads.
    if taken.kept <= FEW_LABELS {
        return put_listed::<FEW_INDEX>(texts, source, slots, taken, FEW_HEADS, out);
    }
    put_listed::<ALL_INDEX>(texts, source, slots, taken, heads_for(taken.kept), out)
}
