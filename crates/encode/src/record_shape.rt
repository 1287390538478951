// A record's shape.
ghost use Rattle.std.specs.Prelude.{◌≡◌, ◌+◌, ◌-◌, ◌≤◌, eqb, length};
ghost use Rattle.lists.specs.Choice.{pick, both};
ghost use Rattle.spec_body.specs.Encode.{good_pair, good_pairs, good_shape};
ghost use Rattle.encode.specs.RecordPlaces.{record_at, pairs_at};

use operand::write::fits_in;

const KIND_WIDTHS: [usize; 6] = [1, 2, 4, 1, 4, 8];

// Whether a pair is one of the six kinds with bits of its width.
fn good_pair(kind: u64, bits: u64) -> bool
    ensures { result ≡ good_pair kind bits }
{
    kind <= 5 && fits_in(KIND_WIDTHS[kind as usize], bits)
}

// Whether a pair is good, where `left` pairs from it on are used, and zero where none is.
fn good_slot(left: u64, kind: u64, bits: u64) -> bool
    ensures { result ≡ pick (eqb left 0) (both (eqb kind 0) (eqb bits 0)) (good_pair kind bits) }
{
    if left == 0 {
        return kind == 0 && bits == 0;
    }
    good_pair(kind, bits)
}

// Whether the eight pairs of the record at `at` are good, where `count` are used.
fn good_pairs(words: &[u64], at: usize, count: u64) -> bool
    requires { at + 20 ≤ length words.now }
    ensures { result ≡ good_pairs 8 count (pairs_at words.now at) }
{
    let mut left = count;
    for i in 0..8 {
        let p = at + 4 + 2 * i;
        if !good_slot(left, words[p], words[p + 1]) {
            return false;
        }
        left = left.saturating_sub(1);
    }
    true
}

// Whether the record at `at` is well-formed.
pub(crate) fn good_shape(words: &[u64], at: usize) -> bool
    requires { at + 20 ≤ length words.now }
    ensures { result ≡ good_shape (record_at words.now at) }
{
    let count = words[at + 3];
    count <= 8 && good_pairs(words, at, count)
}
