// Decimal numbers as text, through the counting writer.
ghost use Rattle.std.specs.Prelude.{◌<◌};
ghost use Rattle.lists.specs.Write.{Put};
ghost use Rattle.spec_numbers.specs.Print.{decimal};

use crate::print_digits::{put_eight, put_middle};

// Where letters would begin, of which decimal digits have none.
const LETTER: u8 = 97;

// A number of at most sixteen digits.
fn put_large(out: &mut [u8], at: usize, n: u64) -> usize
    requires { n < 10000000000000000 }
    ensures { Put out.old at (decimal n) out.new result }
{
    if n < 100000000 {
        return put_middle::<10>(out, at, n, LETTER);
    }
    let k = put_middle::<10>(out, at, n / 100000000, LETTER);
    put_eight::<10>(out, k, n % 100000000, LETTER)
}

// Writes n in decimal.
pub fn put_decimal(out: &mut [u8], at: usize, n: u64) -> usize
    ensures { Put out.old at (decimal n) out.new result }
{
    if n < 100000000 {
        return put_middle::<10>(out, at, n, LETTER);
    }
    let k = put_large(out, at, n / 100000000);
    put_eight::<10>(out, k, n % 100000000, LETTER)
}
