// What a listing shows: DisasmOptions of disasm.rs, without colour.
#[derive(Clone, Copy)]
pub struct Options {
    pub show_offsets: bool,
    pub show_labels: bool,
    pub resolve_strings: bool,
}
