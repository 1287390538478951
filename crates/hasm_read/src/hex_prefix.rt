// What opens a hex number.
ghost use Rattle.std.specs.Prelude.{◌≡◌};
ghost use Rattle.spec_hasm.specs.Line.{has_hex_prefix};

#[tactic(auto, using(lists::proofs::Links::opens_starts), unfolding(spec_hasm::specs::Line::has_hex_prefix, lists::specs::Text::text))]
pub fn has_hex_prefix(t: &[u8]) -> bool
    ensures { result ≡ has_hex_prefix t.now }
{
    t.starts_with(b"0x") || t.starts_with(b"0X")
}
