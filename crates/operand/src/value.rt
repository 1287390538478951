// OperandValue: made from a kind and bits, and turned back into them.
ghost use Rattle.std.specs.Prelude.{◌≡◌};
ghost use Rattle.operand.specs.Value.{value_of, kind_of_value, bits_of_value};

// One of six kinds. A double's bits travel beside it, since an f64 keeps no NaN's payload.
#[derive(Clone, Copy)]
pub enum OperandValue {
    U8(u8),
    U16(u16),
    U32(u32),
    I8(i8),
    I32(i32),
    F64(f64),
}

// An operand that was read: its value, a double's bits beside it and 0 beside any other, and the position behind its bytes.
#[derive(Clone, Copy)]
pub struct Operand {
    pub value: OperandValue,
    pub bits: u64,
    pub next: usize,
}

// The value of a kind with these bits. A kind is a number here, and where it is answered, since a record holds it as one (document 01).
pub fn value_of(kind: u8, bits: u64) -> OperandValue
    ensures { result ≡ value_of kind bits }
{
    match kind {
        0 => OperandValue::U8((bits % 256) as u8),
        1 => OperandValue::U16((bits % 65536) as u16),
        2 => OperandValue::U32((bits % 0x1_0000_0000) as u32),
        3 => OperandValue::I8(numbers::signed::as_i8((bits % 256) as u8)),
        4 => OperandValue::I32(((bits % 0x1_0000_0000) as u32).cast_signed()),
        _ => OperandValue::F64(numbers::value::double_of(bits)),
    }
}

// The kind of a value.
pub fn kind_of(v: OperandValue) -> u8
    ensures { result ≡ kind_of_value v }
{
    match v {
        OperandValue::U8(_) => 0,
        OperandValue::U16(_) => 1,
        OperandValue::U32(_) => 2,
        OperandValue::I8(_) => 3,
        OperandValue::I32(_) => 4,
        OperandValue::F64(_) => 5,
    }
}

// The bits of a value. Those of a double stand beside it.
pub fn bits_of(v: OperandValue, beside: u64) -> u64
    ensures { result ≡ bits_of_value v beside }
{
    match v {
        OperandValue::U8(x) => x as u64,
        OperandValue::U16(x) => x as u64,
        OperandValue::U32(x) => x as u64,
        OperandValue::I8(x) => x.cast_unsigned() as u64,
        OperandValue::I32(x) => x.cast_unsigned() as u64,
        OperandValue::F64(_) => beside,
    }
}
