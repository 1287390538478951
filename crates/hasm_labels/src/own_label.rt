// A label in one word, where too few entries are lent to hold the labels: where its text starts, and its offset. Its text ends at its
// colon, so that its length is not stored.
ghost use Rattle.std.specs.Prelude.{◌≡◌, true, ◌<◌, drop};
ghost use Rattle.std.specs.List.{prefix_len};
ghost use Rattle.lists.specs.Scan.{run};
ghost use Rattle.hasm_labels.specs.Keys.{not_colon, start_limit, offset_limit, label_of_word, label_of};

use crate::label_entry::LabelPlace;

// A text is at most this long.
pub(crate) const START_LIMIT: usize = 1_048_576;

// More than the offset of any instruction, which has at most 65 bytes, one on a line.
pub(crate) const OFFSET_LIMIT: usize = 134_217_728;

const COLON: u8 = b':';

// The bytes from `start` on, found at once: `skip` on an iterator would step over each byte in front of them.
fn rest(text: &[u8], start: usize) -> &[u8]
    ensures { result.now ≡ drop start text.now }
{
    &text[start.min(text.len())..]
}

// How many bytes stand in front of the next colon, or of the end.
fn label_size(text: &[u8], start: usize) -> usize
    ensures { result ≡ prefix_len not_colon (drop start text.now) }
{
    rest(text, start)
        .iter()
        .take_while(|&&b| b != COLON)
        .count()
}

#[tactic(auto, using(lists::proofs::Links::run_prefix))]
pub(crate) fn label_of_word(text: &[u8], word: u64) -> LabelPlace
    ensures { label_of text.now result ≡ label_of_word text.now word }
{
    let w = word as usize;
    let start = w % START_LIMIT;
    let size = label_size(text, start);
    LabelPlace {
        start,
        size,
        offset: w / START_LIMIT % OFFSET_LIMIT,
    }
}

// Whether a word holds the label. It holds every label of a text, since no label has a colon in it. That is not proved, but asked of
// each label: where it does not, the labels are looked up in the text.
#[tactic(auto, using(lists::proofs::Links::run_prefix))]
pub(crate) fn fits_word(text: &[u8], l: LabelPlace) -> bool
    ensures { result ≡ true → (l.start < start_limit) × (l.offset < offset_limit) × (l.size ≡ run not_colon (drop l.start text.now)) }
{
    l.start < START_LIMIT && l.offset < OFFSET_LIMIT && label_size(text, l.start) == l.size
}
