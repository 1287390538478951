// Signed numbers by their bits.
ghost use Rattle.std.specs.Prelude.{◌≡◌};
ghost use Rattle.spec_numbers.specs.TwosComplement.{signed, unsigned, extend8, wrap_sub, wrap_add};

// Straight arithmetic (document 02 (c)): the controller build wants no branch here, and `cast_signed` has one.
pub fn as_i8(b: u8) -> i8
    ensures { result ≡ signed 8 b }
{
    (((b as u16 + 128) % 256) as i16 - 128) as i8
}

pub fn bits_i8(x: i8) -> u8
    ensures { result ≡ unsigned 8 x }
{
    i8::cast_unsigned(x)
}

pub fn as_i32(b: u32) -> i32
    ensures { result ≡ signed 32 b }
{
    u32::cast_signed(b)
}

pub fn bits_i32(x: i32) -> u32
    ensures { result ≡ unsigned 32 x }
{
    i32::cast_unsigned(x)
}

// The 32 bits of a signed byte: `i8 as i32`. Without a branch as well: 0xffff_ff80 is -128 in 32 bits.
pub fn sign_extend8(b: u8) -> u32
    ensures { result ≡ extend8 b }
{
    (((b as u64 + 128) % 256 + 0xffff_ff80) % 0x1_0000_0000) as u32
}

// A jump's distance from its instruction to its target.
pub fn wrapping_distance(target: u32, offset: u32) -> u32
    ensures { result ≡ wrap_sub target offset }
{
    target.wrapping_sub(offset)
}

// And the target from the distance.
pub fn wrapping_target(offset: u32, distance: u32) -> u32
    ensures { result ≡ wrap_add offset distance }
{
    offset.wrapping_add(distance)
}
