// The offset of a label that an operand names.
ghost use Rattle.std.specs.Prelude.{◌≡◌, List, ℕ, ◌<◌, length, false};
ghost use Rattle.slices.specs.Answers.{found_of};
ghost use Rattle.spec_inputs.specs.Context.{context_from};
ghost use Rattle.spec_hasm.specs.Assemble.{LabelAt, codes_of, labels_from, label_offset};
ghost use Rattle.hasm_labels.specs.Keys.{label_of, label_at, LabelsIndexed, AnyIndexed};
ghost use Rattle.hasm_labels.specs.Labelled.{Labelled};

use crate::hold_label::SHORT_LABEL;
use crate::label_entry::{LabelPlace, Slot};
use crate::own_label::label_of_word;
use crate::source::Source;
use slices::compare::same_bytes;

// What is known of a text's labels: how many heads the index of all long ones has, 0 where there is none, and whether it holds them
// itself; and the offset of the last label `L`.
#[derive(Clone, Copy)]
pub struct Known {
    pub heads: usize,
    pub owned: bool,
    pub place: Option<usize>,
}

// The labels of a text whose names are good: the lent entries, the index of the long ones, and what is known of them.
#[derive(Clone, Copy)]
pub struct Labels<'a> {
    pub source: Source<'a>,
    pub slots: &'a [Slot],
    pub index: &'a [u64],
    pub known: Known,
    pub ghost labelled: { (bytes ends : List ℕ) → Labelled (context_from source.tables.text.now source.tables.types.now source.tables.ops.now bytes ends) source.text.now slots.now index.now known },
}

impl Labels<'_> {
    // Label i of the index, whose word is given.
    fn place_of(self, i: usize, word: u64) -> LabelPlace
        requires { self.known.owned ≡ false → i < length self.slots.now }
        ensures { label_of self.entry.source.text.now result ≡ label_at self.entry.known.owned self.entry.source.text.now self.entry.slots.now i word }
    {
        if self.known.owned {
            return label_of_word(self.source.text, word);
        }
        LabelPlace::from(self.slots[i])
    }

    // A label's offset by the index: the first label of its chain that has the text is the last that has it.
    fn find_indexed(self, t: &[u8]) -> Option<usize>
        requires { AnyIndexed self.known.owned self.source.text.now self.slots.now self.index.now self.known.heads }
        ensures { (ls : List LabelAt) → LabelsIndexed self.entry.known.owned self.entry.source.text.now self.entry.slots.now self.entry.index.now self.entry.known.heads ls → result ≡ found_of (label_offset ls t.now) }
    {
        let m = self.known.heads;
        let h = hash_index::hash::bucket_of(t, m);
        let mut k = hash_index::backward::head_at(self.index, h);
        while 0 < k {
            let i = k - 1;
            let word = self.index[m + i];
            let l = self.place_of(i, word);
            let own = slices::part::part_of(self.source.text, l.start, l.size);
            if same_bytes(own, t) {
                return Some(l.offset);
            }
            k = hash_index::backward::next_in(word);
        }
        None
    }

    // All lines are read again.
    fn read_again(self, t: &[u8]) -> Option<usize>
        ensures { (bytes ends : List ℕ) → result ≡ found_of (label_offset (labels_from (context_from self.entry.source.tables.text.now self.entry.source.tables.types.now self.entry.source.tables.ops.now bytes ends) 0 (codes_of (context_from self.entry.source.tables.text.now self.entry.source.tables.types.now self.entry.source.tables.ops.now bytes ends) self.entry.source.text.now)) t.now) }
    {
        let mut none: [Slot; 0] = [];
        let mut no_index: [u64; 0] = [];
        let read = crate::names_pass::read_names(self.source, &mut none, t, &mut no_index, 0);
        let Ok(taken) = read else {
            return None;
        };
        taken.place
    }

    // The last label `L` is known; a long one is searched in the index. Where there is none, all lines are read again, and so they are
    // for a short text, which is no offset and no label's, so that the text is refused and no other is looked up.
    pub fn offset_of(self, t: &[u8]) -> Option<usize>
        ensures { (bytes ends : List ℕ) → result ≡ found_of (label_offset (labels_from (context_from self.entry.source.tables.text.now self.entry.source.tables.types.now self.entry.source.tables.ops.now bytes ends) 0 (codes_of (context_from self.entry.source.tables.text.now self.entry.source.tables.types.now self.entry.source.tables.ops.now bytes ends) self.entry.source.text.now)) t.now) }
    {
        if same_bytes(t, b"L") {
            return self.known.place;
        }
        let heads = self.known.heads;
        let long = SHORT_LABEL < t.len();
        if 0 < heads && long {
            return self.find_indexed(t);
        }
        self.read_again(t)
    }
}
