// Classes of bytes. A class is a set of bytes as the bits of four words: bit b says whether byte b is in it.
ghost use Rattle.std.specs.Prelude.{◌≡◌};
ghost use Rattle.lists.specs.Scan.{all};
ghost use Rattle.slices.specs.Class.{in_class};

// The class is lent, since a copy for each byte costs more than the test.
fn in_class(class: &[u64; 4], b: u8) -> bool
    ensures { result ≡ in_class class.now b }
{
    let n = b as usize;
    let k = n / 64;
    let word = class[k] >> (n % 64);
    word % 2 == 1
}

// Whether all bytes of a text are in a class.
pub fn all_in(s: &[u8], class: [u64; 4]) -> bool
    ensures { result ≡ all (in_class class) s.now }
{
    s.iter().all(|&b| in_class(&class, b))
}
