// Digits of a base as text, by one, two, four and eight at once, through the counting writer. From 10 on a digit is a letter; they
// begin at `letter` ('a' is 97, 'A' is 65).
ghost use Rattle.std.specs.Prelude.{◌≡◌, ℕ, ◌<◌, ◌≤◌, ◌^◌};
ghost use Rattle.lists.specs.Write.{Put};
ghost use Rattle.spec_numbers.specs.Print.{digit, digits};
ghost use Rattle.numbers.specs.Digits.{square, two_of, four_of, eight_of};

use slices::write::put_byte;

// The character of a digit, counted on from that of zero, where letters would begin ten before `letter`: 246 is -10 in a byte.
fn digit_char(d: u64, letter: u8) -> u8
    requires { (d < 16) × (letter ≤ 97) }
    ensures { result ≡ digit letter d }
{
    let zero = if d < 10 { 48 } else { letter as u64 + 246 };
    ((zero + d) % 256) as u8
}

// The two digits of a number, with a zero in front.
pub(crate) fn put_two<const BASE: u64>(out: &mut [u8], at: usize, n: u64, letter: u8) -> usize
    requires { (1 < BASE) × (BASE ≤ 16) × (n < square BASE) × (letter ≤ 97) }
    ensures { Put out.old at (two_of BASE letter n) out.new result }
{
    let k = put_byte(out, at, digit_char(n / BASE, letter));
    put_byte(out, k, digit_char(n % BASE, letter))
}

// Four digits, with zeros in front.
pub(crate) fn put_four<const BASE: u64>(out: &mut [u8], at: usize, n: u64, letter: u8) -> usize
    requires { (1 < BASE) × (BASE ≤ 16) × (n < square (square BASE)) × (letter ≤ 97) }
    ensures { Put out.old at (four_of BASE letter n) out.new result }
{
    let two = BASE * BASE;
    let k = put_two::<BASE>(out, at, n / two, letter);
    put_two::<BASE>(out, k, n % two, letter)
}

// Eight digits, with zeros in front.
pub(crate) fn put_eight<const BASE: u64>(out: &mut [u8], at: usize, n: u64, letter: u8) -> usize
    requires { (1 < BASE) × (BASE ≤ 16) × (n < square (square (square BASE))) × (letter ≤ 97) }
    ensures { Put out.old at (eight_of BASE letter n) out.new result }
{
    let four = BASE * BASE * (BASE * BASE);
    let k = put_four::<BASE>(out, at, n / four, letter);
    put_four::<BASE>(out, k, n % four, letter)
}

// A number of at most two digits.
fn put_few<const BASE: u64>(out: &mut [u8], at: usize, n: u64, letter: u8) -> usize
    requires { (1 < BASE) × (BASE ≤ 16) × (n < square BASE) × (letter ≤ 97) }
    ensures { (fuel : ℕ) → 2 ≤ fuel → n < BASE ^ fuel → Put out.old at (digits BASE letter fuel n) out.new result }
{
    if n < BASE {
        return put_byte(out, at, digit_char(n, letter));
    }
    put_two::<BASE>(out, at, n, letter)
}

// A number of at most four digits.
fn put_small<const BASE: u64>(out: &mut [u8], at: usize, n: u64, letter: u8) -> usize
    requires { (1 < BASE) × (BASE ≤ 16) × (n < square (square BASE)) × (letter ≤ 97) }
    ensures { (fuel : ℕ) → 2 ≤ fuel → n < BASE ^ fuel → Put out.old at (digits BASE letter fuel n) out.new result }
{
    let two = BASE * BASE;
    if n < two {
        return put_few::<BASE>(out, at, n, letter);
    }
    let k = put_few::<BASE>(out, at, n / two, letter);
    put_two::<BASE>(out, k, n % two, letter)
}

// A number of at most eight digits.
pub(crate) fn put_middle<const BASE: u64>(out: &mut [u8], at: usize, n: u64, letter: u8) -> usize
    requires { (1 < BASE) × (BASE ≤ 16) × (n < square (square (square BASE))) × (letter ≤ 97) }
    ensures { (fuel : ℕ) → 2 ≤ fuel → n < BASE ^ fuel → Put out.old at (digits BASE letter fuel n) out.new result }
{
    let four = BASE * BASE * (BASE * BASE);
    if n < four {
        return put_small::<BASE>(out, at, n, letter);
    }
    let k = put_small::<BASE>(out, at, n / four, letter);
    put_four::<BASE>(out, k, n % four, letter)
}
