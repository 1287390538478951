// Records as decoding makes them, with at most four operands. They are tested and written without a branch that depends on
// the operands, since such a branch costs more than an operand: four pairs are always looked at, and each is written as
// eight bytes, of which those behind its own are written over by what follows.
ghost use Rattle.std.specs.Prelude.{◌≡◌, ◌+◌, ◌≤◌, leb, length, take, drop, get_or};
ghost use Rattle.lists.specs.Choice.{pick, both};
ghost use Rattle.lists.specs.Write.{Ahead};
ghost use Rattle.spec_sheet.specs.Types.{width_of};
ghost use Rattle.encode.specs.RecordPlaces.{record_at, pairs_at, CanonicalPut};
ghost use Rattle.encode.specs.Canonical.{code_table, in_order, canonical_count, Counted, canonical_pair, canonical_pairs, canonical_bytes, all_zero, canonical_record};

use slices::widen::wide_byte;

// By type code: the kind that it is decoded to, its largest bits, and its bytes. It is made once for all records and lent,
// since a constant would be made anew at each use.
pub(crate) fn code_table() -> [[u64; 13]; 3]
    ensures { result ≡ code_table }
{
    [
        [0, 0, 2, 0, 1, 2, 0, 1, 2, 3, 4, 4, 5],
        [
            0,
            0xff,
            0xffff_ffff,
            0xff,
            0xffff,
            0xffff_ffff,
            0xff,
            0xffff,
            0xffff_ffff,
            0xff,
            0xffff_ffff,
            0xffff_ffff,
            0xffff_ffff_ffff_ffff,
        ],
        [0, 1, 4, 1, 2, 4, 1, 2, 4, 1, 4, 4, 8],
    ]
}

// Whether the first `count` codes of a row are types and the others none.
fn in_order(row: [u8; 8], count: u64) -> bool
    ensures { result ≡ in_order row count }
{
    for j in 0..8 {
        if (row[j] == 0) == ((j as u64) < count) {
            return false;
        }
    }
    true
}

// How many operands the canonical records of a row have; 9, which no record may have, where it has none.
fn canonical_count(row: [u8; 8]) -> u8
    ensures { result ≡ canonical_count row }
{
    let n = sheet::row::operand_count(row);
    if 4 < n {
        return 9;
    }
    if in_order(row, n) { n as u8 } else { 9 }
}

// The same of each row up to the largest opcode, made once for all records.
pub(crate) fn canonical_counts(types: &[[u8; 8]; 256], last: usize) -> [u8; 256]
    requires { last ≤ 255 }
    ensures { Counted types.now last result }
{
    let mut counts = [9u8; 256];
    for op in 0..last + 1 {
        counts[op] = canonical_count(types[op]);
    }
    counts
}

// Whether a pair has its type's kind and bytes.
fn canonical_pair(codes: &[[u64; 13]; 3], code: u8, kind: u64, bits: u64) -> bool
    requires { codes.now ≡ code_table }
    ensures { result ≡ canonical_pair code kind bits }
{
    if 12 < code {
        return false;
    }
    let c = code as usize;
    kind == codes[0][c] && bits <= codes[1][c]
}

// Whether the first four pairs of the record at `at` have.
fn canonical_front(codes: &[[u64; 13]; 3], row: [u8; 8], words: &[u64], at: usize) -> bool
    requires { (codes.now ≡ code_table) × (at + 20 ≤ length words.now) }
    ensures { result ≡ canonical_pairs (take 4 row) (pairs_at words.now at) }
{
    for j in 0..4 {
        let p = at + 4 + 2 * j;
        if !canonical_pair(codes, row[j], words[p], words[p + 1]) {
            return false;
        }
    }
    true
}

// Whether the other four pairs of the record at `at` are zeros.
fn bare_words(words: &[u64], at: usize) -> bool
    requires { at + 20 ≤ length words.now }
    ensures { result ≡ all_zero (drop 12 (record_at words.now at)) }
{
    let mut met: u64 = 0;
    for j in 12..20 {
        met |= words[at + j];
    }
    met == 0
}

// Whether the record at `at` is one.
pub(crate) fn is_canonical(
    codes: &[[u64; 13]; 3],
    counts: &[u8; 256],
    types: &[[u8; 8]; 256],
    last: usize,
    words: &[u64],
    at: usize,
) -> bool
    requires { (codes.now ≡ code_table) × (Counted types.now last counts.now) × (at + 20 ≤ length words.now) × (last ≤ 255) }
    ensures { result ≡ canonical_record types.now last (record_at words.now at) }
{
    let opcode = words[at + 1];
    if (last as u64) < opcode {
        return false;
    }
    let op = opcode as usize;
    let count = words[at + 3];
    if 4 < count {
        return false;
    }
    if count != wide_byte(counts[op]) {
        return false;
    }
    if bare_words(words, at) {
        return canonical_front(codes, types[op], words, at);
    }
    false
}

fn width_in(codes: &[[u64; 13]; 3], code: u8) -> usize
    requires { codes.now ≡ code_table }
    ensures { result ≡ width_of code }
{
    if 12 < code {
        return 0;
    }
    let c = code as usize;
    codes[2][c] as usize
}

// Writes the first four operands of the record at `at` from position `from` on.
fn put_operands(
    codes: &[[u64; 13]; 3],
    row: [u8; 8],
    words: &[u64],
    at: usize,
    out: &mut [u8],
    from: usize,
) -> usize
    requires { (codes.now ≡ code_table) × (at + 20 ≤ length words.now) × («from» + 40 ≤ length out.old) }
    ensures { (Ahead out.old «from» (canonical_bytes (take 4 row) (pairs_at words.now at)) 8 out.new result) × (length row ≡ 8) }
{
    let mut k = from;
    for j in 0..4 {
        numbers::little_endian::put_eight(out, k, words[at + 5 + 2 * j]);
        k += width_in(codes, row[j]);
    }
    k
}

// Whether a record may be written so: its 41 bytes fit, and eight bytes behind it are written over.
pub(crate) fn has_room(len: usize, from: usize, spare: usize) -> bool
    ensures { result ≡ both (leb 8 spare) (leb («from» + 41) len) }
{
    8 <= spare && 41 <= len && from <= len - 41
}

// Writes the record at `at`.
pub(crate) fn put_record(
    codes: &[[u64; 13]; 3],
    types: &[[u8; 8]; 256],
    words: &[u64],
    at: usize,
    out: &mut [u8],
    from: usize,
) -> usize
    requires { (codes.now ≡ code_table) × (at + 20 ≤ length words.now) × («from» + 41 ≤ length out.old) × (get_or words.now (at + 1) 0 ≤ 255) }
    ensures { CanonicalPut types.now words.now at out.old «from» out.new result }
{
    let opcode = words[at + 1];
    let k = slices::write::put_byte(out, from, opcode as u8);
    put_operands(codes, types[opcode as usize], words, at, out, k)
}
