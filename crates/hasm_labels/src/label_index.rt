// An index of the long labels, in one lent slice: chains from the last label to the first, as of equal texts the last counts. The
// labels are held by slots, or where too few are lent by the index's own words.
ghost use Rattle.std.specs.Prelude.{◌≡◌, [], true, false, ◌+◌, ◌≤◌, ◌<◌, length, take, get_or};
ghost use Rattle.hash_index.specs.Backward.{key_limit};
ghost use Rattle.hasm_labels.specs.Slots.{label_in, labels_in};
ghost use Rattle.hasm_labels.specs.Keys.{Buckets, LabelsIndexed};

use crate::label_entry::{LabelPlace, Slot};
use hash_index::backward::KEY_LIMIT;

// Whether an index of so many words, m of them heads, has room for n labels.
pub(crate) fn has_room(n: usize, words: usize, m: usize) -> bool
    requires { m ≤ words }
    ensures { result ≡ true → (m + n ≤ words) × (n ≤ key_limit) }
{
    n <= KEY_LIMIT && n <= words - m
}

// The text of the i-th slot's label.
fn label_text<'a>(text: &'a [u8], labels: &[Slot], i: usize) -> &'a [u8]
    requires { i < length labels.now }
    ensures { result.now ≡ (label_in text.now (get_or labels.now i [])).text }
{
    let l = LabelPlace::from(labels[i]);
    slices::part::part_of(text, l.start, l.size)
}

// Indexes the labels of the first n slots in m buckets, where there is room for them, and answers whether there was.
pub fn index_slots(text: &[u8], labels: &[Slot], n: usize, index: &mut [u64], m: usize) -> bool
    requires { (n ≤ length labels.now) × Buckets m index.old }
    ensures { result ≡ true → LabelsIndexed false text.now labels.now index.new m (labels_in text.now (take n labels.now)) }
{
    if !has_room(n, index.len(), m) {
        return false;
    }
    hash_index::backward::empty_chains(index, m);
    for k in 0..n {
        let s = label_text(text, labels, k);
        let h = hash_index::hash::bucket_of(s, m);
        hash_index::backward::put_key(index, m, h, k, 0);
    }
    true
}
