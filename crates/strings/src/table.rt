// The string table: bytes and the ends of its entries.
ghost use Rattle.std.specs.Prelude.{◌≡◌, true, ◌-◌, ◌≤◌, ◌<◌, length};
ghost use Rattle.lists.specs.Scan.{part};
ghost use Rattle.slices.specs.Answers.{found_of};
ghost use Rattle.spec_strings.specs.Table.{is_too_large, fault, well_formed, lookup, text_of, entry_start};
ghost use Rattle.strings.specs.Answers.{entry_of};
ghost use Rattle.strings.specs.Order.{Rising, InOrder};

use slices::widen::wide;

// The bytes of all texts, and where each text ends. It starts where the one before it ends.
#[derive(Clone, Copy)]
pub struct StringTable<'a> {
    pub bytes: &'a [u8],
    pub ends: &'a [u32],
}

// Where a text starts and ends.
#[derive(Clone, Copy)]
pub struct Entry {
    pub start: usize,
    pub end: usize,
}

// Whether no end falls. Nothing ends the loop early, so that it compiles to a few instructions for many ends.
fn all_rise(ends: &[u32]) -> bool
    ensures { result ≡ true → Rising ends.now }
{
    let mut rising = true;
    for pair in ends.windows(2) {
        rising &= pair[0] <= pair[1];
    }
    rising
}

impl<'a> StringTable<'a> {
    // Refusal 18: more strings or bytes than a table may have.
    #[tactic(auto, using(std::proofs::lemmas::Bool::Decides::nat_tests), unfolding(spec_strings::specs::Table::is_too_large))]
    pub fn too_large(self) -> bool
        ensures { result ≡ is_too_large self.entry.bytes.now self.entry.ends.now }
    {
        limits::STRING_LIMIT < self.ends.len() || limits::STRING_BYTES_LIMIT < self.bytes.len()
    }

    // The text from start to end, as far as there is any: the ends may fall or pass the bytes. By a branch, which is foreseen: a
    // search of all texts takes half as long again where each waits for a saturated difference.
    pub fn part(self, start: usize, end: usize) -> &'a [u8]
        ensures { result.now ≡ part self.entry.bytes.now start (end - start) }
    {
        if end < start {
            return slices::part::part_of(self.bytes, start, 0);
        }
        slices::part::part_of(self.bytes, start, end - start)
    }

    // Whether an entry is in order: refusal 17.
    #[tactic(auto, using(std::proofs::lemmas::Bool::Decides::nat_tests), unfolding(spec_strings::specs::Table::well_formed))]
    fn well_formed(self, start: usize, end: usize) -> bool
        ensures { result ≡ well_formed self.entry.bytes.now start end }
    {
        start <= end && end <= self.bytes.len() && crate::utf8::is_utf8(&self.bytes[start..end])
    }

    // The first entry that is refused with 17, entry by entry.
    fn walk_entries(self) -> Option<usize>
        ensures { result ≡ found_of (fault self.entry.bytes.now self.entry.ends.now) }
    {
        let mut start: usize = 0;
        for (i, &end) in self.ends.iter().enumerate() {
            let end = wide(end);
            if !self.well_formed(start, end) {
                return Some(i);
            }
            start = end;
        }
        None
    }

    // Whether no end falls or passes the bytes.
    fn in_order(self) -> bool
        ensures { result ≡ true → InOrder self.entry.bytes.now self.entry.ends.now }
    {
        match self.ends.last() {
            Some(&end) => wide(end) <= self.bytes.len() && all_rise(self.ends),
            None => true,
        }
    }

    // The first entry that is refused with 17. Most tables are ASCII with their ends in order, and are found sound without a walk
    // over entries and characters.
    #[tactic(auto, using(crate::proofs::AsciiLaws::none_faulty))]
    pub fn find_fault(self) -> Option<usize>
        ensures { result ≡ found_of (fault self.entry.bytes.now self.entry.ends.now) }
    {
        if self.bytes.is_ascii() && self.in_order() {
            return None;
        }
        self.walk_entries()
    }

    // Where the text of an id starts and ends.
    #[tactic(auto, using(std::proofs::lemmas::Bool::Decides::nat_tests), unfolding(crate::specs::Answers::entry_of))]
    pub fn string_at(self, id: usize) -> Option<Entry>
        ensures { result ≡ entry_of self.entry.ends.now id }
    {
        let &end = self.ends.get(id)?;
        let start = self.start_of(id);
        Some(Entry {
            start,
            end: wide(end),
        })
    }

    // Where the text of an id starts.
    fn start_of(self, id: usize) -> usize
        requires { id < length self.ends.now }
        ensures { result ≡ entry_start self.entry.ends.now id }
    {
        if id == 0 {
            return 0;
        }
        wide(self.ends[id - 1])
    }

    // The text of an id.
    pub fn text_of(self, id: usize) -> &'a [u8]
        requires { id < length self.ends.now }
        ensures { result.now ≡ text_of self.entry.bytes.now self.entry.ends.now id }
    {
        self.part(self.start_of(id), wide(self.ends[id]))
    }

    // The first id whose text is equal. Lengths are compared before bytes.
    pub fn lookup(self, text: &[u8]) -> Option<usize>
        ensures { result ≡ found_of (lookup text.now self.entry.bytes.now self.entry.ends.now) }
    {
        let mut start: usize = 0;
        for (i, &end) in self.ends.iter().enumerate() {
            let end = wide(end);
            let entry = self.part(start, end);
            if slices::compare::same_bytes(entry, text) {
                return Some(i);
            }
            start = end;
        }
        None
    }
}
