// What a line is, by places of the line.
ghost use Rattle.std.specs.Prelude.{ℕ, ◌≤◌, List, length};
ghost use Rattle.limits.specs.Limits.{line_limit};
ghost use Rattle.spec_inputs.specs.Context.{context_from};
ghost use Rattle.spec_hasm.specs.Line.{statement_of};
ghost use Rattle.hasm_read.specs.Statements.{StatementIn};

use crate::comment::comment_start;
use crate::line_offset::behind_offset;
use crate::line_shape::{is_label, is_skipped};
use crate::white_space::{solid_length, white_end};
use sheet::name_index::Names;

// A label by its start and its length without the colon; an instruction by where it starts, behind an offset, and where
// it ends.
#[derive(Clone, Copy)]
pub enum Statement {
    Nothing,
    Label(usize, usize),
    Instruction(usize, usize),
}

// What a line is, without its comment and the white space around it.
pub fn read_statement(line: &[u8], names: Names<'_>) -> Statement
    requires { length line.now ≤ line_limit }
    ensures { (types : List (List ℕ)) (bytes ends : List ℕ) → StatementIn (statement_of (context_from names.entry.text.now types names.entry.ops.now bytes ends) line.now) line.now result }
{
    // Most labels stand alone on their line: this saves the search for a comment and for white space.
    if is_label(line) {
        let size = line.len() - 1;
        return Statement::Label(0, size);
    }
    let c = comment_start(line);
    let a = white_end(&line[..c], 0);
    let n = solid_length(&line[a..c]);
    let s = &line[a..a + n];
    if is_skipped(s) {
        return Statement::Nothing;
    }
    if is_label(s) {
        let size = n - 1;
        return Statement::Label(a, size);
    }
    let k = behind_offset(s, names);
    Statement::Instruction(a + k, a + n)
}
