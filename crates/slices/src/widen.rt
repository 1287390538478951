// Numbers in a wider type. A call asks only for the element's index, where a cast asks also that the number fits.
ghost use Rattle.std.specs.Prelude.{◌≡◌, ◌≤◌, ◌<◌};

pub fn wide(x: u32) -> usize
    ensures { (result ≡ x) × (result ≤ 4294967295) }
{
    x as usize
}

pub fn wide_byte(b: u8) -> u64
    ensures { (result ≡ b) × (result < 256) }
{
    b as u64
}

pub fn byte_index(b: u8) -> usize
    ensures { result ≡ b }
{
    b as usize
}
