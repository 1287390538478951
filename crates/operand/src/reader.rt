// ByteReader of io.rs: a body that is lent, and the position of the next byte. A read answers what it read and the position behind
// it, or that the bytes end, and leaves the reader as it is: io.rs moves the position there. Each read takes the reader apart and
// calls a function of the slice and the position; above it stands a function with plain parameters, which is what others call.
ghost use Rattle.std.specs.Prelude.{◌≡◌, ℕ, ◌-◌, ◌^◌, ◌<◌, ◌≤◌, length, from_bits, IfSome};
ghost use Rattle.std.specs.Float.{binary64};
ghost use Rattle.spec_numbers.specs.TwosComplement.{signed};
ghost use Rattle.std.proofs.Common.{rules};
ghost use Rattle.operand.specs.Reader.{number_at, read_at, u8_at, u16_at, u32_at, i8_at, i32_at, f64_at};

#[derive(Clone, Copy)]
pub struct ByteReader<'a> {
    pub body: &'a [u8],
    pub pos: usize,
}

// What was read: a number, the bits that it is made of, since an f64 keeps no NaN's payload, and the position behind them.
#[derive(Clone, Copy)]
pub struct Read<T> {
    pub value: T,
    pub bits: u64,
    pub next: usize,
}

// The numbers that are read: how many bytes each takes, and the number that bits are.
pub trait Number {
    ghost WIDTH: { ℕ };

    ghost number: { ℕ → Self };

    const WIDTH: usize;

    fn of_bits(bits: u64) -> Self
        requires { bits < 256 ^ WIDTH }
        ensures { result ≡ number bits };

    ghost few: { WIDTH ≤ 8 };
}

impl Number for u8 {
    ghost WIDTH = { 1 };

    ghost number = { λ n. n };

    const WIDTH: usize = 1;

    fn of_bits(bits: u64) -> u8 {
        bits as u8
    }

    ghost few = { Prim.search rules };
}

impl Number for u16 {
    ghost WIDTH = { 2 };

    ghost number = { λ n. n };

    const WIDTH: usize = 2;

    fn of_bits(bits: u64) -> u16 {
        bits as u16
    }

    ghost few = { Prim.search rules };
}

impl Number for u32 {
    ghost WIDTH = { 4 };

    ghost number = { λ n. n };

    const WIDTH: usize = 4;

    fn of_bits(bits: u64) -> u32 {
        bits as u32
    }

    ghost few = { Prim.search rules };
}

impl Number for i8 {
    ghost WIDTH = { 1 };

    ghost number = { signed 8 };

    const WIDTH: usize = 1;

    fn of_bits(bits: u64) -> i8 {
        numbers::signed::as_i8(bits as u8)
    }

    ghost few = { Prim.search rules };
}

impl Number for i32 {
    ghost WIDTH = { 4 };

    ghost number = { signed 32 };

    const WIDTH: usize = 4;

    fn of_bits(bits: u64) -> i32 {
        (bits as u32).cast_signed()
    }

    ghost few = { Prim.search rules };
}

impl Number for f64 {
    ghost WIDTH = { 8 };

    ghost number = { from_bits binary64 };

    const WIDTH: usize = 8;

    fn of_bits(bits: u64) -> f64 {
        numbers::value::double_of(bits)
    }

    ghost few = { Prim.search rules };
}

// The number of n bytes at a position, or that the bytes end.
fn number_at(s: &[u8], at: usize, n: usize) -> Option<u64>
    requires { n ≤ 8 }
    ensures number { result ≡ number_at s.now at n }
    ensures below { IfSome result (λ bits. bits < 256 ^ n) }
{
    if n <= s.len() && at <= s.len() - n {
        return Some(numbers::little_endian::read_le(s, at, n));
    }
    None
}

// A number of any kind at a position.
fn read_at<T: Number>(s: &[u8], at: usize) -> Option<Read<T>>
    ensures { result ≡ read_at T.WIDTH T.number s.now at }
{
    let bits = number_at(s, at, T::WIDTH)?;
    Some(Read {
        value: T::of_bits(bits),
        bits,
        next: at + T::WIDTH,
    })
}

fn u8_at(s: &[u8], at: usize) -> Option<Read<u8>>
    ensures { result ≡ u8_at s.now at }
{
    read_at::<u8>(s, at)
}

fn u16_at(s: &[u8], at: usize) -> Option<Read<u16>>
    ensures { result ≡ u16_at s.now at }
{
    read_at::<u16>(s, at)
}

fn u32_at(s: &[u8], at: usize) -> Option<Read<u32>>
    ensures { result ≡ u32_at s.now at }
{
    read_at::<u32>(s, at)
}

fn i8_at(s: &[u8], at: usize) -> Option<Read<i8>>
    ensures { result ≡ i8_at s.now at }
{
    read_at::<i8>(s, at)
}

fn i32_at(s: &[u8], at: usize) -> Option<Read<i32>>
    ensures { result ≡ i32_at s.now at }
{
    read_at::<i32>(s, at)
}

fn f64_at(s: &[u8], at: usize) -> Option<Read<f64>>
    ensures { result ≡ f64_at s.now at }
{
    read_at::<f64>(s, at)
}

// How many bytes stand behind a position.
fn left_at(s: &[u8], at: usize) -> usize
    ensures { result ≡ length s.now - at }
{
    s.len().saturating_sub(at)
}

impl<'a> ByteReader<'a> {
    pub fn from(body: &'a [u8], pos: usize) -> ByteReader<'a>
        ensures { (result.body ≡ body.entry) × (result.pos ≡ pos) }
    {
        ByteReader { body, pos }
    }

    pub fn position(self) -> usize
        ensures { result ≡ self.entry.pos }
    {
        self.pos
    }

    pub fn remaining(self) -> usize
        ensures { result ≡ length self.entry.body.now - self.entry.pos }
    {
        left_at(self.body, self.pos)
    }

    pub fn read<T: Number>(self) -> Option<Read<T>>
        ensures { result ≡ read_at T.WIDTH T.number self.entry.body.now self.entry.pos }
    {
        read_at(self.body, self.pos)
    }

    pub fn read_u8(self) -> Option<Read<u8>>
        ensures { result ≡ u8_at self.entry.body.now self.entry.pos }
    {
        u8_at(self.body, self.pos)
    }

    pub fn read_u16(self) -> Option<Read<u16>>
        ensures { result ≡ u16_at self.entry.body.now self.entry.pos }
    {
        u16_at(self.body, self.pos)
    }

    pub fn read_u32(self) -> Option<Read<u32>>
        ensures { result ≡ u32_at self.entry.body.now self.entry.pos }
    {
        u32_at(self.body, self.pos)
    }

    pub fn read_i8(self) -> Option<Read<i8>>
        ensures { result ≡ i8_at self.entry.body.now self.entry.pos }
    {
        i8_at(self.body, self.pos)
    }

    pub fn read_i32(self) -> Option<Read<i32>>
        ensures { result ≡ i32_at self.entry.body.now self.entry.pos }
    {
        i32_at(self.body, self.pos)
    }

    pub fn read_f64(self) -> Option<Read<f64>>
        ensures { result ≡ f64_at self.entry.body.now self.entry.pos }
    {
        f64_at(self.body, self.pos)
    }
}

// The reads at a position of a body. Whoever calls one needs no proof by hand.
pub fn u8_of(s: &[u8], at: usize) -> Option<Read<u8>>
    ensures { result ≡ u8_at s.now at }
{
    ByteReader::from(s, at).read_u8()
}

pub fn u16_of(s: &[u8], at: usize) -> Option<Read<u16>>
    ensures { result ≡ u16_at s.now at }
{
    ByteReader::from(s, at).read_u16()
}

pub fn u32_of(s: &[u8], at: usize) -> Option<Read<u32>>
    ensures { result ≡ u32_at s.now at }
{
    ByteReader::from(s, at).read_u32()
}

pub fn i8_of(s: &[u8], at: usize) -> Option<Read<i8>>
    ensures { result ≡ i8_at s.now at }
{
    ByteReader::from(s, at).read_i8()
}

pub fn i32_of(s: &[u8], at: usize) -> Option<Read<i32>>
    ensures { result ≡ i32_at s.now at }
{
    ByteReader::from(s, at).read_i32()
}

pub fn f64_of(s: &[u8], at: usize) -> Option<Read<f64>>
    ensures { result ≡ f64_at s.now at }
{
    ByteReader::from(s, at).read_f64()
}
