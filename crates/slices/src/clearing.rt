// Lent space, cleared as a refusal leaves it.
ghost use Rattle.std.specs.Prelude.{◌≡◌, [], ◌∷◌, length, replicate};

// Sets every element to `zero`. (`fill` asks also that a clone can't fail, which `T: Copy` doesn't say.)
pub fn clear<T: Copy>(out: &mut [T], zero: T)
    ensures { out.new ≡ replicate (length out.old) zero }
{
    for x in out.iter_mut() {
        *x = zero;
    }
}

// Sets every word to 0.
pub fn clear_words(out: &mut [u64])
    ensures { out.new ≡ replicate (length out.old) 0 }
{
    clear(out, 0)
}

// Sets every label entry of a listing to 0.
pub fn clear_entries(entries: &mut [u32])
    ensures { entries.new ≡ replicate (length entries.old) 0 }
{
    clear(entries, 0)
}

// Sets every label entry of an assembled text, three words, to 0.
pub fn clear_labels(labels: &mut [[u32; 3]])
    ensures { labels.new ≡ replicate (length labels.old) (0 ∷ 0 ∷ 0 ∷ []) }
{
    clear(labels, [0, 0, 0])
}
