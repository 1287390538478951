// Readings at a place of a text: each answers a value and the place behind it, or nothing where the text is not of the form.
ghost use Rattle.std.specs.Prelude.{◌≡◌, ◌+◌, ◌-◌, ◌≤◌, length, drop, get_or, eqb, ltb, leb};
ghost use Rattle.std.specs.List.{prefix_len};
ghost use Rattle.lists.specs.Scan.{run, opens};
ghost use Rattle.lists.specs.Text.{text};
ghost use Rattle.spec_sheet.specs.Scan.{literal_at, is_digit, is_upper, is_name_byte, number_at, keyed_at, may_be_name, name_at, type_at};
ghost use Rattle.sheet.specs.Answers.{place_of, step_of};
ghost use Rattle.lists.specs.Choice.{both};

// A value that was read, and the place behind it.
#[derive(Clone, Copy)]
pub struct Reading {
    pub value: u64,
    pub next: usize,
}

// Whether the byte at `at` is b; behind the end every byte counts as 0.
pub fn byte_is(s: &[u8], at: usize, b: u8) -> bool
    ensures { result ≡ eqb (get_or s.now at 0) b }
{
    if at < s.len() { s[at] == b } else { 0 == b }
}

// The place behind exactly the bytes of p.
pub fn literal_at(s: &[u8], at: usize, p: &[u8]) -> Option<usize>
    ensures { result ≡ place_of (literal_at p.now s.now at) }
{
    if slices::compare::opens_at(s, at, p) {
        return Some(at + p.len());
    }
    None
}

// A letter, a digit or an underscore.
pub fn is_name_byte(b: u8) -> bool
    ensures { result ≡ is_name_byte b }
{
    b.is_ascii_alphanumeric() || b == 95
}

// The bytes from `at` on.
fn rest(s: &[u8], at: usize) -> &[u8]
    ensures { result.now ≡ drop at s.now }
{
    &s[at.min(s.len())..]
}

#[tactic(auto, using(crate::proofs::ByteClasses::digit_class))]
fn is_digit(b: u8) -> bool
    ensures { result ≡ is_digit b }
{
    b.is_ascii_digit()
}

// How many digits stand in front.
fn digits_in_front(s: &[u8]) -> usize
    ensures counted { result ≡ prefix_len is_digit s.now }
    ensures inside { result ≤ length s.now }
{
    s.iter().take_while(|&&b| is_digit(b)).count()
}

// How many letters, digits and underscores stand in front.
fn name_bytes_in_front(s: &[u8]) -> usize
    ensures counted { result ≡ prefix_len is_name_byte s.now }
    ensures inside { result ≤ length s.now }
{
    s.iter().take_while(|&&b| is_name_byte(b)).count()
}

// The same at a place.
fn digits_at(s: &[u8], at: usize) -> usize
    ensures { (result ≡ run is_digit (drop at s.now)) × (result ≤ length s.now - at) }
{
    digits_in_front(rest(s, at))
}

fn name_bytes_at(s: &[u8], at: usize) -> usize
    ensures { (result ≡ run is_name_byte (drop at s.now)) × (result ≤ length s.now - at) }
{
    name_bytes_in_front(rest(s, at))
}

// The same of a name, whose letters are counted by words of eight bytes, which takes a third of the
// instructions; what follows them is a space as a rule, or else is counted by bytes.
fn count_name(s: &[u8], at: usize) -> usize
    ensures { (result ≡ run is_name_byte (drop at s.now)) × (result ≤ length s.now - at) }
{
    let mut i = at;
    while has_left(s, i, 8) {
        let w = numbers::little_endian::read_of_eight(s, i, 8);
        let k = crate::letter_word::letters_in_front(w);
        i += k;
        if k < 8 {
            if s[i] == 32 {
                return i - at;
            }
            return i - at + name_bytes_at(s, i);
        }
    }
    i - at + name_bytes_at(s, i)
}

// Whether the k digits at `at` are more than one and open with 0.
fn is_padded(s: &[u8], at: usize, k: usize) -> bool
    requires { k ≤ length s.now - at }
    ensures { result ≡ both (ltb 1 k) (eqb (get_or s.now at 0) 48) }
{
    1 < k && s[at] == 48
}

// A decimal number up to `most` without leading zeros.
pub fn number_at(s: &[u8], at: usize, most: u64) -> Option<Reading>
    ensures { result ≡ step_of (number_at most s.now at) }
{
    let k = digits_at(s, at);
    if is_padded(s, at, k) {
        return None;
    }
    let digits = slices::part::part_of(s, at, k);
    let value = numbers::parse::unsigned_value(digits, 0, 10, most)?;
    Some(Reading {
        value,
        next: at + k,
    })
}

// A number up to `most` between a key and what has to stand behind it.
pub fn keyed_at(s: &[u8], at: usize, key: &[u8], most: u64, tail: &[u8]) -> Option<Reading>
    ensures { result ≡ step_of (keyed_at key.now most tail.now s.now at) }
{
    let start = literal_at(s, at, key)?;
    let number = number_at(s, start, most)?;
    let next = literal_at(s, number.next, tail)?;
    Some(Reading {
        value: number.value,
        next,
    })
}

// Whether an upper-case letter stands at `at`.
fn opens_upper(s: &[u8], at: usize) -> bool
    ensures { result ≡ is_upper (get_or s.now at 0) }
{
    at < s.len() && s[at].is_ascii_uppercase()
}

// Whether `Function` stands at `at`. Its first byte is tested before all else, since few names open with it.
fn opens_function(s: &[u8], at: usize) -> bool
    ensures { result ≡ opens (text "Function") (drop at s.now) }
{
    byte_is(s, at, 70) && slices::compare::opens_at(s, at, b"Function")
}

// Whether the k letters, digits and underscores at `at` may be an opcode's name.
#[tactic(auto, unfolding(spec_sheet::specs::Scan::may_be_name))]
fn may_be_name(s: &[u8], at: usize, k: usize) -> bool
    ensures { result ≡ may_be_name s.now at k }
{
    k <= 48 && !opens_function(s, at) && opens_upper(s, at)
}

// An opcode's name: its length.
pub fn name_at(s: &[u8], at: usize) -> Option<Reading>
    ensures { result ≡ step_of (name_at s.now at) }
{
    let k = count_name(s, at);
    if may_be_name(s, at, k) {
        return Some(Reading {
            value: k as u64,
            next: at + k,
        });
    }
    None
}

// Whether n bytes are left. The difference does not depend on `at`, so that a loop makes it once.
pub(crate) fn has_left(s: &[u8], at: usize, n: usize) -> bool
    ensures { result ≡ leb (at + n) (length s.now) }
{
    n <= s.len() && at <= s.len() - n
}

// The name of an operand type: its code. Each name has four bytes or more, and comparing them shows whether they are
// letters and digits, so the word is counted from the fifth on.
fn counted_type(s: &[u8], at: usize) -> Option<Reading>
    ensures { result ≡ step_of (type_at s.now at) }
{
    if !has_left(s, at, 4) {
        return None;
    }
    let next = at + 4 + name_bytes_at(s, at + 4);
    let code = crate::operand_types::type_code(&s[at..next])?;
    Some(Reading {
        value: code as u64,
        next,
    })
}

// The same, first by one word of eight bytes: the names of a well-formed sheet are all found so, at about half the cost, but for
// those at its very end.
pub fn type_at(s: &[u8], at: usize) -> Option<Reading>
    ensures { result ≡ step_of (type_at s.now at) }
{
    crate::type_word::quick_type(s, at).or_else(|| counted_type(s, at))
}
