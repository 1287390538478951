// The whole doubles up to 2^53 in size, to and from their bits.
ghost use Rattle.std.specs.Prelude.{◌≡◌, ◌^◌, ◌≤◌};
ghost use Rattle.numbers.specs.Answers.{number_of};
ghost use Rattle.spec_numbers.specs.Double.{whole_of, bits_of_whole};

// A double's size, where that is a whole number up to 2^53.
pub fn whole_of(bits: u64) -> Option<u64>
    ensures { result ≡ number_of (whole_of bits) }
{
    let e = bits / 0x10_0000_0000_0000 % 0x800;
    let m = bits % 0x10_0000_0000_0000;
    match e {
        0 => (m == 0).then_some(0),
        1023..=1075 => {
            let significand = 0x10_0000_0000_0000 + m;
            let k = (1075 - e) as u32;
            (k <= significand.trailing_zeros()).then_some(significand >> k)
        }
        1076 => (m == 0).then_some(0x20_0000_0000_0000),
        _ => None,
    }
}

// The bits of the double n.
pub fn bits_of_whole(n: u64) -> u64
    requires { n ≤ 2 ^ 53 }
    ensures { result ≡ bits_of_whole n }
{
    if n == 0 {
        return 0;
    }
    if n == 0x20_0000_0000_0000 {
        return 1076 * 0x10_0000_0000_0000;
    }
    let top = 63 - n.leading_zeros();
    let significand = n << (52 - top);
    ((top + 1023) as u64) * 0x10_0000_0000_0000 + (significand - 0x10_0000_0000_0000)
}
