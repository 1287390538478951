// The index of a text's long labels, which the index itself holds, by a pass over the text.
ghost use Rattle.std.specs.Prelude.{◌≡◌, true, List, ℕ};
ghost use Rattle.spec_hasm.specs.Assemble.{codes_of, labels_from};
ghost use Rattle.hasm_labels.specs.Sources.{context_of};
ghost use Rattle.hasm_labels.specs.LongLabels.{long_of};
ghost use Rattle.hasm_labels.specs.Keys.{Buckets, LabelsIndexed};

use crate::label_entry::Slot;
use crate::names_pass::read_names;
use crate::source::Source;

// Indexes the long labels of a text whose names are good in m buckets, and answers whether all of them are there.
pub fn index_text(source: Source<'_>, index: &mut [u64], m: usize) -> bool
    requires { Buckets m index.old }
    ensures { result ≡ true → (bytes ends : List ℕ) (slots : List (List ℕ)) → LabelsIndexed true source.entry.text.now slots index.new m (long_of (labels_from (context_of source.entry bytes ends) 0 (codes_of (context_of source.entry bytes ends) source.entry.text.now))) }
{
    let mut none: [Slot; 0] = [];
    match read_names(source, &mut none, b"L", index, m) {
        Ok(taken) => taken.indexed,
        Err(_) => false,
    }
}
