// A filter of names by hash: a name that is not in it is new, which saves the search. It has 64 bits for each opcode, so that
// two names of a sheet seldom meet in one.
ghost use Rattle.std.specs.Prelude.{◌≡◌, ◌<◌};
ghost use Rattle.sheet.specs.NameFilter.{name_hash, in_filter, with_hash};

// A number below 16384 by all bytes of a name.
pub fn name_hash(name: &[u8]) -> usize
    ensures { (result ≡ name_hash name.now) × (result < 16384) }
{
    hash_index::hash::hash_of(name) % 16384
}

pub fn in_filter(filter: &[u64; 256], h: usize) -> bool
    requires { h < 16384 }
    ensures { result ≡ in_filter filter.now h }
{
    let k = h / 64;
    let word = filter[k] >> (h % 64);
    word % 2 == 1
}

pub fn add_hash(filter: &mut [u64; 256], h: usize)
    requires { h < 16384 }
    ensures { filter.new ≡ with_hash filter.old h }
{
    let k = h / 64;
    let bit = 1u64 << (h % 64);
    filter[k] = filter[k] | bit;
}
