// Why an operation refuses (document 01, 'Numbers the desk returns'). The definition refusal_report gives each case its number,
// place and operand. 19 is no case: the lent space decides it after an operation's own refusals.

// What is wrong with one operand.
#[derive(Clone, Copy, PartialEq, Eq, Debug)]
pub enum OperandFault {
    Register,
    Address,
    Distance,
    Quotes,
    Text,
    Number,
    Double,
    Misfit,
    NotCarried,
}

// Each case with its place: a line, an offset or an index; an operand's fault with the operand's number too.
#[derive(Clone, Copy, PartialEq, Eq, Debug)]
pub enum Refusal {
    Malformed(usize),
    BadByte(usize),
    LongLine(usize),
    UnknownName(usize),
    OperandCount(usize),
    BadOperand(OperandFault, usize, usize),
    Beyond(usize),
    Cut(usize),
    BadRecord(usize),
    BadString(usize),
    TooLarge,
    NoFunction(usize),
}
