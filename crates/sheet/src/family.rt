// The families of operand types.

// A carry keeps an operand's family. What is no operand has none.
#[derive(Clone, Copy, PartialEq, Eq)]
pub enum Family {
    NoOperand,
    Reg,
    UInt,
    Str,
    Addr,
    Imm32,
    Double,
}
