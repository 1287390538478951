// A sheet that was read.

// Its text, which the names are parts of, and its tables by opcode: the type codes, and beside them operand count, jump mark, and the
// start and length of the name.
#[derive(Clone, Copy)]
pub struct Tables<'a> {
    pub text: &'a [u8],
    pub types: &'a [[u8; 8]; 256],
    pub ops: &'a [[usize; 4]; 256],
}
