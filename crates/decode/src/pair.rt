// Two elements that are written side by side.
ghost use Rattle.std.specs.Prelude.{◌≡◌, ◌+◌, ◌≤◌, length, set};

// Writes two elements.
pub(crate) fn put_pair<T: Copy>(out: &mut [T], k: usize, first: T, second: T)
    requires { k + 2 ≤ length out.old }
    ensures { out.new ≡ set (set out.old k first) (k + 1) second }
{
    out[k] = first;
    out[k + 1] = second;
}
