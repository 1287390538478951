// Work space of a size that its type says.
ghost use Rattle.std.specs.Prelude.{◌≡◌, ◌≤◌, ◌<◌, length, replicate};

// An array that holds `zero` in each element.
pub fn zeroed<T: Copy, const N: usize>(zero: T) -> [T; N]
    ensures { result ≡ replicate N zero }
{
    [zero; N]
}

// Calls f with the smallest of three spaces that has room for n words. Clearing a large one takes longer than a short body or text takes.
pub fn with_words<
    const FEW: usize,
    const SOME: usize,
    const ALL: usize,
    R,
    F: FnMut(&mut [u32]) -> R,
>(n: usize, f: &mut F) -> R
    requires sizes { (FEW < 1048576) × (SOME < 1048576) × (ALL < 1048576) }
    requires room { (n ≤ ALL) × ((space : _) → n ≤ length space.now → F.pre f.old space) }
    ensures { (space : _) × (space' : _) × (n ≤ length space.now) × F.step f.old space result space' f.new }
{
    if n <= FEW {
        let mut few = zeroed::<u32, FEW>(0);
        return f(&mut few);
    }
    if n <= SOME {
        let mut some = zeroed::<u32, SOME>(0);
        return f(&mut some);
    }
    let mut all = zeroed::<u32, ALL>(0);
    f(&mut all)
}
