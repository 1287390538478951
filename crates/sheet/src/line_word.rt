// The fixed texts of an opcode line by words of eight bytes, and its number by at most three digits, as a well-formed sheet has
// them. What a function here answers is what the plain one answers, but it may answer nothing where that does.
ghost use Rattle.std.specs.Prelude.{◌≡◌, ◌+◌, ◌<◌, ◌≤◌, length, get_or, IfSome};
ghost use Rattle.lists.specs.Text.{text};
ghost use Rattle.spec_sheet.specs.Scan.{number_at, keyed_at};
ghost use Rattle.spec_sheet.specs.Scan.Step.{next};
ghost use Rattle.spec_sheet.specs.Line.{jump_at};

use crate::scan::{Reading, has_left};
use numbers::little_endian::read_of_eight;
use slices::compare::is_within;
use slices::widen::wide_byte;

// A number of N digits with a space behind it.
fn short_number<const N: usize>(s: &[u8], at: usize) -> Option<Reading>
    requires { (0 < N) × (N ≤ 3) × (at + N < length s.now) × (get_or s.now (at + N) 0 ≡ 32) }
    ensures { IfSome result (λ r. (number_at 255 s.now at ≡ next r.value r.next) × (r.next ≤ at + 3)) }
{
    if 1 < N && s[at] == 48 {
        return None;
    }
    let mut n: u64 = 0;
    for i in 0..N {
        let b = s[at + i];
        if !is_within(48, 57, b) {
            return None;
        }
        n = n * 10 + (wide_byte(b) - 48);
        if 255 < n {
            return None;
        }
    }
    Some(Reading {
        value: n,
        next: at + N,
    })
}

// An opcode's number: one, two or three digits.
fn opcode_number(s: &[u8], at: usize) -> Option<Reading>
    requires { at + 4 ≤ length s.now }
    ensures { IfSome result (λ r. (number_at 255 s.now at ≡ next r.value r.next) × (r.next ≤ at + 3)) }
{
    if s[at + 1] == 32 {
        return short_number::<1>(s, at);
    }
    if s[at + 2] == 32 {
        return short_number::<2>(s, at);
    }
    if s[at + 3] == 32 {
        return short_number::<3>(s, at);
    }
    None
}

// The number between `op=` and ` name=`.
pub(crate) fn quick_op(s: &[u8], at: usize) -> Option<Reading>
    ensures { IfSome result (λ r. keyed_at (text "op=") 255 (text " name=") s.now at ≡ next r.value r.next) }
{
    if !has_left(s, at, 16) {
        return None;
    }
    if read_of_eight(s, at, 8) % 0x100_0000 == 0x3d_706f {
        let number = opcode_number(s, at + 3)?;
        if read_of_eight(s, number.next, 8) % 0x1_0000_0000_0000 == 0x3d65_6d61_6e20 {
            return Some(Reading {
                value: number.value,
                next: number.next + 6,
            });
        }
    }
    None
}

// The jump mark: all of ` jump=0 types=` or ` jump=1 types=`.
pub(crate) fn quick_jump(s: &[u8], at: usize) -> Option<Reading>
    ensures { IfSome result (λ r. jump_at s.now at ≡ next r.value r.next) }
{
    if !has_left(s, at, 16) {
        return None;
    }
    if read_of_eight(s, at + 8, 8) % 0x1_0000_0000_0000 == 0x3d73_6570_7974 {
        let w = read_of_eight(s, at, 8);
        if w == 0x2030_3d70_6d75_6a20 {
            return Some(Reading {
                value: 0,
                next: at + 14,
            });
        }
        if w == 0x2031_3d70_6d75_6a20 {
            return Some(Reading {
                value: 1,
                next: at + 14,
            });
        }
    }
    None
}
