// An index of a table's texts by their ids. It answers what `lookup` of the table answers.
ghost use Rattle.std.specs.Prelude.{◌≡◌, ◌≤◌, Some, length};
ghost use Rattle.limits.specs.Limits.{string_limit};
ghost use Rattle.slices.specs.Answers.{found_of};
ghost use Rattle.spec_strings.specs.Table.{text_of, lookup};
ghost use Rattle.strings.specs.Keys.{text_buckets, text_space, TextsIndexed};

use crate::table::StringTable;
use hash_index::keys::{Keys, find_key, index_keys};

const MOST_BUCKETS: usize = 16384;

// How many strings a small table has, and a middling one. Space for the index of as many as may be takes longer to clear than a short
// text or body takes.
pub const FEW_STRINGS: usize = 256;

pub const SOME_STRINGS: usize = 4096;

// How long the index of so many texts is, and of as many as may be.
pub const FEW_INDEX: usize = 2 * FEW_STRINGS + 1;

pub const SOME_INDEX: usize = 2 * SOME_STRINGS + 1;

pub const ALL_INDEX: usize = MOST_BUCKETS + limits::STRING_LIMIT;

// A table's strings, and an index of them.
#[derive(Clone, Copy)]
pub struct TextIndex<'a> {
    pub strings: StringTable<'a>,
    pub index: &'a [u32],
    pub ghost indexed: { TextsIndexed strings.bytes.now strings.ends.now index.now },
}

// How many buckets an index of n texts has.
fn buckets_of(n: usize) -> usize
    ensures { result ≡ text_buckets n }
{
    if n < MOST_BUCKETS {
        n + 1
    } else {
        MOST_BUCKETS
    }
}

impl Keys for StringTable<'_> {
    ghost amount = { λ t. length t.ends.now };

    ghost key_at = { λ t id. Some (text_of t.bytes.now t.ends.now id) };

    fn count(&self) -> usize {
        self.ends.len()
    }

    fn key(&self, i: usize) -> Option<&[u8]> {
        Some(self.text_of(i))
    }
}

// Indexes the texts of all ids.
pub fn index_texts(strings: StringTable<'_>, index: &mut [u32])
    requires { (length strings.ends.now ≤ string_limit) × (text_space (length strings.ends.now) ≤ length index.old) }
    ensures { TextsIndexed strings.entry.bytes.now strings.entry.ends.now index.new }
{
    let m = buckets_of(strings.ends.len());
    index_keys(&strings, m, index);
}

impl<'a> TextIndex<'a> {
    // The first id whose text is equal.
    pub fn find(self, text: &[u8]) -> Option<usize>
        ensures { result ≡ found_of (lookup text.now self.entry.strings.bytes.now self.entry.strings.ends.now) }
    {
        let m = buckets_of(self.strings.ends.len());
        find_key(&self.strings, m, self.index, text)
    }
}

impl<'a> StringTable<'a> {
    // How long an index of the table's texts is.
    pub fn index_size(self) -> usize
        ensures { result ≡ text_space (length self.entry.ends.now) }
    {
        let n = self.ends.len();
        buckets_of(n) + n
    }
}
