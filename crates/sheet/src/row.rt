// A row of type codes: how long its instruction is, and how many operands it has.
ghost use Rattle.std.specs.Prelude.{◌≡◌, ◌≤◌};
ghost use Rattle.spec_sheet.specs.Row.{length_of, one_for, count_of};

// The length of an instruction whose operands have the types of the row.
pub fn instruction_length(row: [u8; 8]) -> usize
    ensures { (result ≡ length_of row) × (result ≤ 65) }
{
    let mut n: usize = 1;
    for i in 0..8 {
        n += crate::operand_types::width(row[i]);
    }
    n
}

// Whether a code is a type, as a number, so that no branch depends on it.
pub fn one_for(code: u8) -> u64
    ensures { result ≡ one_for code }
{
    if code == 0 { 0 } else { 1 }
}

// How many operands it has.
pub fn operand_count(row: [u8; 8]) -> u64
    ensures { result ≡ count_of row }
{
    let mut n: u64 = 0;
    for i in 0..8 {
        n += one_for(row[i]);
    }
    n
}
