// Carrying a body to another sheet and string table.
ghost use Rattle.std.specs.Prelude.{◌≡◌, [], ◌∷◌, ℕ, ◌<◌, ◌≤◌, length, get_or};
ghost use Rattle.limits.specs.Limits.{body_limit, string_limit};
ghost use Rattle.answers.specs.Answers.{answer_report};
ghost use Rattle.answers.specs.Report.{cleared};
ghost use Rattle.answers.specs.Outcome.{Ended};
ghost use Rattle.operation.specs.Ends.{left_by};
ghost use Rattle.spec_inputs.specs.Context.{context_from};
ghost use Rattle.strings.specs.Keys.{text_space, TextsIndexed};
ghost use Rattle.spec_carry.specs.Carry as definition;
ghost use Rattle.spec_carry.specs.Carry.{carry_under};
ghost use Rattle.carry.specs.Ready.{ZerosBehind, Ready};
ghost use Rattle.carry.specs.Ids.{Translated};
ghost use Rattle.carry.specs.Prepared.{Between, Prepared};

use crate::edition::{Edition, Opened};
use crate::ids::{translate_all, translate_in};
use crate::instructions::carry_instructions;
use crate::marks::Marks;
use crate::opcodes::{EMPTY, Opcodes, rows_between};
use crate::places::mark_places;
use crate::plans::plan_table;
use answers::failure::Answer;
use operation::ending::{measure, settle};
use sheet::tables::Tables;
use slices::clearing::{clear_entries, clear_labels};
use slices::space::with_words;
use strings::table::StringTable;
use strings::text_index::{FEW_STRINGS, SOME_STRINGS};

// Carries a body whose places are marked, then measures the result. `n` is the number of its instructions.
fn carry_marked(
    opcodes: Opcodes<'_>,
    marks: Marks<'_>,
    s: &[u8],
    n: usize,
    lent: usize,
    out: &mut [u8],
) -> Answer
    requires { Ready opcodes.types.now opcodes.types2.now opcodes.rows.now opcodes.last s.now marks.places.now marks.ids.now }
    ensures { (g : Ready opcodes.entry.types.now opcodes.entry.types2.now opcodes.entry.rows.now opcodes.entry.last s.now marks.entry.places.now marks.entry.ids.now) → n ≡ length g.records → Ended (carry_under g.«from» g.into opcodes.entry.last s.now) out.old (lent ∷ []) (left_by result out.new) (answer_report result) }
{
    let mut plans = [[None; 8]; 256];
    plan_table(
        opcodes.types,
        opcodes.types2,
        opcodes.rows,
        opcodes.last,
        &mut plans,
    );
    let k = carry_instructions(&plans, opcodes.rows, s, marks, out)?;
    measure(k, limits::BODY_LIMIT, n, lent, out)
}

// Carries a body with space for its places.
fn carry_mapped(
    opcodes: Opcodes<'_>,
    ids: &[u32],
    s: &[u8],
    lent: usize,
    map: &mut [u32],
    out: &mut [u8],
) -> Answer
    requires { Prepared opcodes.types.now opcodes.types2.now opcodes.rows.now opcodes.last ids.now × (length s.now ≤ body_limit) × (length s.now < length map.old) }
    ensures { (g : Prepared opcodes.entry.types.now opcodes.entry.types2.now opcodes.entry.rows.now opcodes.entry.last ids.now) → Ended (carry_under g.contexts.«from» g.contexts.into opcodes.entry.last s.now) out.old (lent ∷ []) (left_by result out.new) (answer_report result) }
{
    clear_entries(map);
    let n = mark_places(opcodes.rows, opcodes.last, s, map)?;
    carry_marked(opcodes, Marks { places: map, ids }, s, n, lent, out)
}

// How many places a small body has, its end counted in, and one of as many bytes as may be.
const SMALL_MAP: usize = 4097;

const ALL_MAP: usize = limits::BODY_LIMIT + 1;

// Carries a body. A small one takes a small map, which costs less to clear.
fn carry_body(opcodes: Opcodes<'_>, ids: &[u32], s: &[u8], lent: usize, out: &mut [u8]) -> Answer
    requires { Prepared opcodes.types.now opcodes.types2.now opcodes.rows.now opcodes.last ids.now × (length s.now ≤ body_limit) }
    ensures { (g : Prepared opcodes.entry.types.now opcodes.entry.types2.now opcodes.entry.rows.now opcodes.entry.last ids.now) → Ended (carry_under g.contexts.«from» g.contexts.into opcodes.entry.last s.now) out.old (lent ∷ []) (left_by result out.new) (answer_report result) }
{
    let mut carry_with = |map: &mut [u32]|
        requires { Prepared opcodes.types.now opcodes.types2.now opcodes.rows.now opcodes.last ids.now × (length s.now ≤ body_limit) × (length s.now < length map.old) }
    { carry_mapped(opcodes, ids, s, lent, map, out) };
    with_words::<SMALL_MAP, SMALL_MAP, ALL_MAP, _, _>(s.len() + 1, &mut carry_with)
}

// Translates the ids into lent space, then carries the body.
fn carry_translated(
    opcodes: Opcodes<'_>,
    strings: StringTable<'_>,
    strings2: StringTable<'_>,
    s: &[u8],
    lent: usize,
    ids: &mut [u32],
    out: &mut [u8],
) -> Answer
    requires between { Between opcodes.types.now opcodes.types2.now opcodes.rows.now opcodes.last strings.bytes.now strings.ends.now strings2.bytes.now strings2.ends.now }
    requires s_len_bound { (length s.now ≤ body_limit) × (length ids.old ≡ length strings.ends.now) × (length strings2.ends.now ≤ string_limit) }
    ensures { (g : Between opcodes.entry.types.now opcodes.entry.types2.now opcodes.entry.rows.now opcodes.entry.last strings.entry.bytes.now strings.entry.ends.now strings2.entry.bytes.now strings2.entry.ends.now) → Ended (carry_under g.«from» g.into opcodes.entry.last s.now) out.old (lent ∷ []) (left_by result out.new) (answer_report result) }
{
    translate_all(strings, strings2, ids);
    carry_body(opcodes, ids, s, lent, out)
}

// The same with space that is made here, little of it for a table of few strings.
fn carry_between(
    opcodes: Opcodes<'_>,
    strings: StringTable<'_>,
    strings2: StringTable<'_>,
    s: &[u8],
    lent: usize,
    out: &mut [u8],
) -> Answer
    requires between { Between opcodes.types.now opcodes.types2.now opcodes.rows.now opcodes.last strings.bytes.now strings.ends.now strings2.bytes.now strings2.ends.now }
    requires s_len_bound { (length s.now ≤ body_limit) × (length strings.ends.now ≤ string_limit) × (length strings2.ends.now ≤ string_limit) }
    ensures { (g : Between opcodes.entry.types.now opcodes.entry.types2.now opcodes.entry.rows.now opcodes.entry.last strings.entry.bytes.now strings.entry.ends.now strings2.entry.bytes.now strings2.entry.ends.now) → Ended (carry_under g.«from» g.into opcodes.entry.last s.now) out.old (lent ∷ []) (left_by result out.new) (answer_report result) }
{
    let n = strings.ends.len();
    let mut carry_with = |ids: &mut [u32]|
        requires between { Between opcodes.types.now opcodes.types2.now opcodes.rows.now opcodes.last strings.bytes.now strings.ends.now strings2.bytes.now strings2.ends.now }
        requires s_len_bound { (length s.now ≤ body_limit) × (n ≡ length strings.ends.now) × (n ≤ length ids.old) × (length strings2.ends.now ≤ string_limit) }
    { carry_translated(opcodes, strings, strings2, s, lent, &mut ids[0..n], out) };
    with_words::<FEW_STRINGS, SOME_STRINGS, { limits::STRING_LIMIT }, _, _>(n, &mut carry_with)
}

// Carries a body under the tables of two sheets.
fn carry_opened(
    from: Opened<'_>,
    last: usize,
    into: Opened<'_>,
    s: &[u8],
    lent: usize,
    out: &mut [u8],
) -> Answer
    requires s_len_bound { (length s.now ≤ body_limit) × (length «from».strings.ends.now ≤ string_limit) × (length into.strings.ends.now ≤ string_limit) }
    requires by_index { ((op : ℕ) → ZerosBehind (get_or «from».tables.types.now op [])) × ((op : ℕ) → ZerosBehind (get_or into.tables.types.now op [])) }
    ensures { Ended (carry_under (context_from «from».entry.tables.text.now «from».entry.tables.types.now «from».entry.tables.ops.now «from».entry.strings.bytes.now «from».entry.strings.ends.now) (context_from into.entry.tables.text.now into.entry.tables.types.now into.entry.tables.ops.now into.entry.strings.bytes.now into.entry.strings.ends.now) last s.now) out.old (lent ∷ []) (left_by result out.new) (answer_report result) }
{
    let mut rows = [EMPTY; 256];
    rows_between(from.tables, last, into.tables, &mut rows);
    let opcodes = Opcodes {
        types: from.tables.types,
        types2: into.tables.types,
        rows: &rows,
        last,
    };
    carry_between(opcodes, from.strings, into.strings, s, lent, out)
}

// The same in lent space: a word for each string of the first table, and an index of the second's texts. A caller with few strings
// needs less of the stack so.
pub fn carry_within(
    from: Opened<'_>,
    last: usize,
    into: Opened<'_>,
    s: &[u8],
    lent: usize,
    ids: &mut [u32],
    index: &mut [u32],
    out: &mut [u8],
) -> Answer
    requires s_len_bound { (length s.now ≤ body_limit) × (length into.strings.ends.now ≤ string_limit) × (length ids.old ≡ length «from».strings.ends.now) × (text_space (length into.strings.ends.now) ≤ length index.old) }
    requires by_index { ((op : ℕ) → ZerosBehind (get_or «from».tables.types.now op [])) × ((op : ℕ) → ZerosBehind (get_or into.tables.types.now op [])) }
    ensures ended { Ended (carry_under (context_from «from».entry.tables.text.now «from».entry.tables.types.now «from».entry.tables.ops.now «from».entry.strings.bytes.now «from».entry.strings.ends.now) (context_from into.entry.tables.text.now into.entry.tables.types.now into.entry.tables.ops.now into.entry.strings.bytes.now into.entry.strings.ends.now) last s.now) out.old (lent ∷ []) out.new (answer_report result) }
    ensures translated { Translated «from».entry.strings.bytes.now «from».entry.strings.ends.now into.entry.strings.bytes.now into.entry.strings.ends.now ids.new }
    ensures texts_indexed { TextsIndexed into.entry.strings.bytes.now into.entry.strings.ends.now index.new }
{
    translate_in(from.strings, into.strings, index, ids);
    let mut rows = [EMPTY; 256];
    rows_between(from.tables, last, into.tables, &mut rows);
    let opcodes = Opcodes {
        types: from.tables.types,
        types2: into.tables.types,
        rows: &rows,
        last,
    };
    let answer = carry_body(opcodes, ids, s, lent, out);
    settle(answer, out);
    answer
}

// Carries a body from a sheet and string table to another, where so many label entries are lent.
fn carry_given(
    from: Edition<'_>,
    into: Edition<'_>,
    body: &[u8],
    lent: usize,
    out: &mut [u8],
) -> Answer
    ensures { Ended (definition.carry (record { sheet₁ = «from».entry.sheet.now; bytes₁ = «from».entry.strings.bytes.now; ends₁ = «from».entry.strings.ends.now; sheet₂ = into.entry.sheet.now; bytes₂ = into.entry.strings.bytes.now; ends₂ = into.entry.strings.ends.now; body = body.now })) out.old (lent ∷ []) (left_by result out.new) (answer_report result) }
{
    crate::inputs::check_tables(body, from.strings, into.strings)?;
    let mut types = [[0u8; 8]; 256];
    let mut ops = [[0usize; 4]; 256];
    let mut types2 = [[0u8; 8]; 256];
    let mut ops2 = [[0usize; 4]; 256];
    let last = crate::inputs::read_sheets(
        from.sheet,
        into.sheet,
        &mut types,
        &mut ops,
        &mut types2,
        &mut ops2,
    )?;
    let opened = Opened {
        tables: Tables {
            text: from.sheet,
            types: &types,
            ops: &ops,
        },
        strings: from.strings,
    };
    let opened2 = Opened {
        tables: Tables {
            text: into.sheet,
            types: &types2,
            ops: &ops2,
        },
        strings: into.strings,
    };
    carry_opened(opened, last, opened2, body, lent, out)
}

// Carries a body from a sheet and string table to another. A label entry is lent for each instruction; it is counted, and cleared.
pub fn carry(
    from: Edition<'_>,
    into: Edition<'_>,
    body: &[u8],
    out: &mut [u8],
    labels: &mut [[u32; 3]],
) -> Answer
    ensures ended { Ended (definition.carry (record { sheet₁ = «from».entry.sheet.now; bytes₁ = «from».entry.strings.bytes.now; ends₁ = «from».entry.strings.ends.now; sheet₂ = into.entry.sheet.now; bytes₂ = into.entry.strings.bytes.now; ends₂ = into.entry.strings.ends.now; body = body.now })) out.old (length labels.old ∷ []) out.new (answer_report result) }
    ensures labels_after { labels.new ≡ cleared (0 ∷ 0 ∷ 0 ∷ []) labels.old }
{
    let answer = carry_given(from, into, body, labels.len(), out);
    settle(answer, out);
    clear_labels(labels);
    answer
}
