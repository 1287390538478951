// What stands for the places of a body and for the ids of the first table, in lent words: 1 more than the new place or id, 0 for
// none. Memory is fixed, and an Option of a word would take two.
ghost use Rattle.std.specs.Prelude.{◌≡◌, ◌+◌, ◌<◌, ◌^◌, IfSome};
ghost use Rattle.carry.specs.Marks.{mark_of, marked};

// Those of places by byte position, and of ids.
#[derive(Clone, Copy)]
pub struct Marks<'a> {
    pub places: &'a [u32],
    pub ids: &'a [u32],
}

// What stands for a number.
pub(crate) fn mark_of(number: Option<usize>) -> u32
    requires { IfSome number (λ n. n + 1 < 2 ^ 32) }
    ensures { result ≡ mark_of number }
{
    match number {
        Some(n) => n as u32 + 1,
        None => 0,
    }
}

// The number that a mark stands for.
pub(crate) fn marked(mark: u32) -> Option<usize>
    ensures { result ≡ marked mark }
{
    if mark == 0 {
        return None;
    }
    Some(mark as usize - 1)
}
