// Escapes as the assembler reads them back: unquote of write/hasm/parse.rs. A writer takes `out` and the position in it, since the
// position goes on where `out` ends (slices::write).
ghost use Rattle.std.specs.Prelude.{◌≡◌, false};
ghost use Rattle.lists.specs.Write.{Put};
ghost use Rattle.spec_strings.specs.Escape.{meant, unescape};
ghost use Rattle.strings.specs.ReadTurns.{read_text, slash_after};

use slices::write::put_byte;

#[tactic(auto, using(std::proofs::lemmas::Bool::Decides::nat_tests), unfolding(spec_strings::specs::Escape::meant))]
fn meant_by(b: u8) -> u8
    ensures { result ≡ meant b }
{
    match b {
        b'n' => b'\n',
        b't' => b'\t',
        b'r' => b'\r',
        _ => b,
    }
}

// What one byte between the quotes adds, where `slash` says that a backslash came just before.
fn put_read(out: &mut [u8], at: usize, slash: bool, b: u8) -> usize
    ensures { Put out.old at (read_text slash b) out.new result }
{
    if slash {
        return put_byte(out, at, meant_by(b));
    }
    if b == b'\\' {
        return at;
    }
    put_byte(out, at, b)
}

fn slash_after(slash: bool, b: u8) -> bool
    ensures { result ≡ slash_after slash b }
{
    !slash && b == b'\\'
}

pub fn put_unescaped(out: &mut [u8], at: usize, s: &[u8]) -> usize
    ensures { Put out.old at (unescape false s.now) out.new result }
{
    let mut k = at;
    let mut slash = false;
    for &b in s {
        k = put_read(out, k, slash, b);
        slash = slash_after(slash, b);
    }
    k
}
