// How many different numbers a slice holds, by parting them at the middle of their range until they are equal.
ghost use Rattle.std.specs.Prelude.{◌≡◌, ◌-◌, ◌≤◌, ◌<◌, length, take};
ghost use Rattle.spec_listing.specs.Labels.{different};
ghost use Rattle.list_labels.specs.Parts.{below, above, Between};

// Moves the numbers below `bound` to the front of `a` and the others to the front of `spare`, both in their order, and
// answers how many are below.
fn part(a: &mut [u32], spare: &mut [u32], bound: u32) -> usize
    requires { length a.old ≤ length spare.old }
    ensures { (result ≤ length a.old) × (take result a.new ≡ below bound a.old) × (take (length a.old - result) spare.new ≡ above bound a.old) }
{
    let mut n: usize = 0;
    for i in 0..a.len() {
        let x = a[i];
        if x < bound {
            a[n] = x;
            n += 1;
        } else {
            spare[i - n] = x;
        }
    }
    n
}

// The same for numbers from `low` on and below `high`. Each part is counted in place, with what is free of the other slice
// as its spare room.
fn count_between(a: &mut [u32], spare: &mut [u32], low: u64, high: u64) -> usize
    requires { (Between low high a.old) × (length a.old ≤ length spare.old) × (low < high) × (high ≤ 4294967296) }
    ensures { result ≡ different a.old }
{
    let len = a.len();
    if len < 2 {
        return len;
    }
    if high - low < 2 {
        return 1;
    }
    let mid = low + (high - low) / 2;
    let n = part(a, spare, mid as u32);
    let rest = len - n;
    let front = count_between(&mut a[0..n], &mut spare[rest..], low, mid);
    front + count_between(&mut spare[0..rest], &mut a[n..], mid, high)
}

// How many different numbers `a` holds. Both slices are left in any order.
pub(crate) fn count_different(a: &mut [u32], spare: &mut [u32]) -> usize
    requires { length a.old ≤ length spare.old }
    ensures { result ≡ different a.old }
{
    count_between(a, spare, 0, 4294967296)
}
