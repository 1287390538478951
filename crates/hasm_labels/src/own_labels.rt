// The long labels of a text in an index that holds them itself: its start, and a label more.
ghost use Rattle.std.specs.Prelude.{◌≡◌, true, ◌++◌, ℕ, ◌≤◌, ◌<◌, drop, get_or, replicate};
ghost use Rattle.hasm_labels.specs.Keys.{Buckets};
ghost use Rattle.hasm_labels.specs.Owning.{OwnMore};

use crate::hold_label::{LabelPart, Progress};
use crate::label_entry::LabelPlace;
use crate::own_label::START_LIMIT;

// Empties an index of m heads, where there are any, and answers whether there are.
pub(crate) fn start_index(index: &mut [u64], m: usize) -> bool
    requires { 0 < m → Buckets m index.old }
    ensures { result ≡ true → (0 < m) × (index.new ≡ replicate m 0 ++ drop m index.old) }
{
    if m == 0 {
        return false;
    }
    hash_index::backward::empty_chains(index, m);
    true
}

// Puts the label that waited at p into the index, where a line has taken it and it is long: the long ones are one more then. Answers
// whether the index holds all of them, which it did before where it was whole.
pub(crate) fn put_taken(
    text: &[u8],
    index: &mut [u64],
    m: usize,
    p: Progress,
    long: usize,
    whole: bool,
) -> bool
    requires { whole ≡ true → Buckets m index.old × (p.kept < 4294967295) × ((h : ℕ) → h < m → get_or index.old h 0 ≤ p.kept) }
    ensures { result ≡ true → (whole ≡ true) × OwnMore text.now m p long index.old index.new }
{
    if !whole {
        return false;
    }
    let k = p.kept;
    if long == k {
        return true;
    }
    if !crate::label_index::has_room(k + 1, index.len(), m) {
        return false;
    }
    let Some(part) = p.waiting else {
        return false;
    };
    let LabelPart { start, size } = part;
    let offset = p.offset;
    let l = LabelPlace {
        start,
        size,
        offset,
    };
    if !crate::own_label::fits_word(text, l) {
        return false;
    }
    let s = slices::part::part_of(text, start, size);
    let h = hash_index::hash::bucket_of(s, m);
    let word = start + offset * START_LIMIT;
    hash_index::backward::put_key(index, m, h, k, word as u64);
    true
}
