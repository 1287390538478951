// Instructions that the flow does not pass.
ghost use Rattle.std.specs.Prelude.{◌≡◌};
ghost use Rattle.spec_listing.specs.Labels.{ends_flow};
ghost use Rattle.list_labels.specs.FlowNames.{name_shown};

use slices::compare::same_bytes;

// Whether a name is one of those. Its length is compared first, since that excludes most names.
fn is_flow_end(name: &[u8]) -> bool
    ensures { result ≡ ends_flow name.now }
{
    match name.len() {
        3 => same_bytes(name, b"Ret") || same_bytes(name, b"Jmp"),
        5 => same_bytes(name, b"Throw"),
        7 => same_bytes(name, b"JmpLong"),
        _ => false,
    }
}

// Whether the opcode whose name starts at `start` of a sheet's text and is `size` long is one. A length of 0 is a gap, "<invalid>".
pub(crate) fn ends_flow(text: &[u8], start: usize, size: usize) -> bool
    ensures { result ≡ ends_flow (name_shown text.now start size) }
{
    if size == 0 {
        return false;
    }
    is_flow_end(slices::part::part_of(text, start, size))
}
