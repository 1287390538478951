// An index of all names of a sheet, in one lent slice. A search in it answers what `find_name` of the sheet answers.
ghost use Rattle.std.specs.Prelude.{◌≡◌, ◌+◌, ◌≤◌, length};
ghost use Rattle.slices.specs.Answers.{found_of};
ghost use Rattle.spec_sheet.specs.Sheet.{find_name};
ghost use Rattle.sheet.specs.Keys.{name_buckets, opcode_count, name_of, NamesIndexed};

use hash_index::keys::{Keys, find_key, index_keys};

const NAME_BUCKETS: usize = 256;

const OPCODE_COUNT: usize = 256;

// How long the index is.
pub const NAME_INDEX: usize = NAME_BUCKETS + OPCODE_COUNT;

// The names of all opcodes, of which some are gaps.
#[derive(Clone, Copy)]
struct OpcodeNames<'a> {
    text: &'a [u8],
    rows: &'a [[usize; 4]],
}

impl<'a> Keys for OpcodeNames<'a> {
    ghost amount = { λ o. length o.rows.now };

    ghost key_at = { λ o. name_of o.text.now o.rows.now };

    fn count(&self) -> usize {
        self.rows.len()
    }

    fn key(&self, i: usize) -> Option<&[u8]> {
        let row = self.rows[i];
        let size = row[crate::rows::NAME_SIZE];
        if size == 0 {
            return None;
        }
        Some(slices::part::part_of(self.text, row[crate::rows::NAME_START], size))
    }
}

// Indexes the names of all opcodes.
pub fn index_names(text: &[u8], ops: &[[usize; 4]; 256], index: &mut [u32])
    requires { name_buckets + opcode_count ≤ length index.old }
    ensures { NamesIndexed text.now ops.now index.new }
{
    index_keys(&OpcodeNames { text, rows: ops }, NAME_BUCKETS, index)
}

// A sheet's text, its rows by opcode, and an index of all names.
#[derive(Clone, Copy)]
pub struct Names<'a> {
    pub text: &'a [u8],
    pub ops: &'a [[usize; 4]; 256],
    pub index: &'a [u32],
    pub ghost indexed: { NamesIndexed text.now ops.now index.now },
}

impl<'a> Names<'a> {
    // The first opcode that has a name.
    #[tactic(auto, using(crate::proofs::NameWalk::first_name))]
    pub fn find(self, name: &[u8]) -> Option<usize>
        ensures { result ≡ found_of (find_name self.entry.text.now name.now 0 self.entry.ops.now) }
    {
        let ops = self.ops;
        let names = OpcodeNames {
            text: self.text,
            rows: ops,
        };
        find_key(&names, NAME_BUCKETS, self.index, name)
    }
}
