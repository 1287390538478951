// A double's value.
ghost use Rattle.std.specs.Prelude.{◌≡◌, from_bits};
ghost use Rattle.std.specs.Float.{binary64};

// The double of 64 bits. Every pattern of a NaN gives the one NaN, so the bits must be kept beside the value.
pub fn double_of(bits: u64) -> f64
    ensures { result ≡ from_bits binary64 bits }
{
    let size = bits % 0x8000_0000_0000_0000;
    if 0x7ff0_0000_0000_0000 < size {
        0.0 / 0.0
    } else {
        f64::from_bits(bits)
    }
}
