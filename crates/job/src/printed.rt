// A refusal, a body and an answer as they are printed.
ghost use Rattle.std.specs.Prelude.{◌≡◌, ◌+◌, ◌*◌, ◌≤◌, length};
ghost use Rattle.limits.specs.Limits.{job_output};
ghost use Rattle.lists.specs.Write.{Put};
ghost use Rattle.answers.specs.Numbers.{report_in};
ghost use Rattle.answers.specs.Refusals.{refusal_report};
ghost use Rattle.spec_job.specs.Printed.{refused_text, hex_of, body_text};
ghost use Rattle.job.specs.Prints.{Prints, answer_text};

use answers::refusal::Refusal;
use answers::report::Numbers;
use numbers::print_decimal::put_decimal;
use slices::write::put_bytes;

// Writes `refused=N place=P operand=Q` and LF.
fn put_refused(out: &mut [u8], n: Numbers) -> usize
    ensures { Put out.old 0 (refused_text (report_in n)) out.new result }
{
    let a = put_bytes(out, 0, b"refused=");
    let b = put_decimal(out, a, n.number);
    let c = put_bytes(out, b, b" place=");
    let d = put_decimal(out, c, n.place);
    let e = put_bytes(out, d, b" operand=");
    let f = put_decimal(out, e, n.operand);
    put_bytes(out, f, b"\n")
}

// A refusal that is all that is printed.
pub(crate) fn refused(out: &mut [u8], x: Refusal) -> usize
    ensures { Put out.old 0 (refused_text (refusal_report x)) out.new result }
{
    put_refused(out, Numbers::from(x))
}

// Writes two upper-case digits a byte.
fn put_hex_bytes(out: &mut [u8], at: usize, s: &[u8]) -> usize
    ensures put { Put out.old at (hex_of s.now) out.new result }
    ensures s_len { length (hex_of s.now) ≡ 2 * length s.now }
{
    let mut k = at;
    for &b in s {
        k = numbers::print_hex::put_hex_byte(out, k, b);
    }
    k
}

// Writes `body=`, the bytes in hex, and LF.
fn put_body(out: &mut [u8], s: &[u8]) -> usize
    ensures put { Put out.old 0 (body_text s.now) out.new result }
    ensures s_len { length (body_text s.now) ≡ 2 * length s.now + 6 }
{
    let a = put_bytes(out, 0, b"body=");
    let b = put_hex_bytes(out, a, s);
    put_bytes(out, b, b"\n")
}

// Prints an operation's answer: its result, which stands at the front of `out`, or the line of its refusal.
pub(crate) fn put_answer(hex: bool, n: Numbers, out: &[u8], text: &mut [u8]) -> usize
    requires { (n.length ≤ length out.now) × (length out.now ≤ job_output) }
    ensures { Prints (answer_text hex (report_in n) out.now) text.old text.new result }
{
    if n.number != 0 {
        return put_refused(text, n);
    }
    let size = n.length as usize;
    if hex {
        return put_body(text, &out[0..size]);
    }
    put_bytes(text, 0, &out[0..size])
}
