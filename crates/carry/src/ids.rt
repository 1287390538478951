// The second table's id of each text of the first, made once for a body: a text of a megabyte may be named by each of 32,768
// instructions, and is looked up once.
ghost use Rattle.std.specs.Prelude.{◌≡◌, ◌≤◌, length};
ghost use Rattle.limits.specs.Limits.{string_limit};
ghost use Rattle.strings.specs.Keys.{text_space, TextsIndexed};
ghost use Rattle.carry.specs.Ids.{Translated};

use crate::marks::mark_of;
use slices::space::with_words;
use strings::table::StringTable;
use strings::text_index::{ALL_INDEX, FEW_INDEX, SOME_INDEX, TextIndex, index_texts};

// Sets what stands for each id of the first table.
fn translate(strings: StringTable<'_>, into: TextIndex<'_>, ids: &mut [u32])
    requires { (length ids.old ≡ length strings.ends.now) × (length into.strings.ends.now ≤ string_limit) }
    ensures { Translated strings.entry.bytes.now strings.entry.ends.now into.entry.strings.bytes.now into.entry.strings.ends.now ids.new }
{
    for id in 0..ids.len() {
        ids[id] = mark_of(into.find(strings.text_of(id)));
    }
}

// Sets what stands for each id of the first table, with space for an index of the second.
pub(crate) fn translate_in(
    strings: StringTable<'_>,
    strings2: StringTable<'_>,
    index: &mut [u32],
    ids: &mut [u32],
)
    requires { (length ids.old ≡ length strings.ends.now) × (length strings2.ends.now ≤ string_limit) × (text_space (length strings2.ends.now) ≤ length index.old) }
    ensures translated { Translated strings.entry.bytes.now strings.entry.ends.now strings2.entry.bytes.now strings2.entry.ends.now ids.new }
    ensures texts_indexed { TextsIndexed strings2.entry.bytes.now strings2.entry.ends.now index.new }
{
    index_texts(strings2, index);
    let into = TextIndex {
        strings: strings2,
        index,
    };
    translate(strings, into, ids);
}

// The same with space that is made here, little of it for a table of few strings.
pub(crate) fn translate_all(strings: StringTable<'_>, strings2: StringTable<'_>, ids: &mut [u32])
    requires { (length ids.old ≡ length strings.ends.now) × (length strings2.ends.now ≤ string_limit) }
    ensures { Translated strings.entry.bytes.now strings.entry.ends.now strings2.entry.bytes.now strings2.entry.ends.now ids.new }
{
    let mut translate_with = |index: &mut [u32]|
        requires { (length ids.now ≡ length strings.ends.now) × (length strings2.ends.now ≤ string_limit) × (text_space (length strings2.ends.now) ≤ length index.old) }
        ensures { Translated strings.entry.bytes.now strings.entry.ends.now strings2.entry.bytes.now strings2.entry.ends.now ids.exit.now }
    { translate_in(strings, strings2, index, ids) };
    with_words::<FEW_INDEX, SOME_INDEX, ALL_INDEX, _, _>(
        strings2.index_size(),
        &mut translate_with,
    );
}
