// One place of the label list. Only the functions here know what it holds.
ghost use Rattle.std.specs.Prelude.{◌≡◌, [], ◌∷◌, ◌<◌, set};
ghost use Rattle.hasm_labels.specs.Slots.{place_in};

// The start and the length of a label's text, and its offset, as the C interface lends them.
pub type Slot = [u32; 3];

// A label: where its text starts, how long it is, and its offset.
#[derive(Clone, Copy)]
pub struct LabelPlace {
    pub start: usize,
    pub size: usize,
    pub offset: usize,
}

impl From<Slot> for LabelPlace {
    ghost from_gives = { λ x r. r ≡ place_in x };

    fn from(slot: Slot) -> LabelPlace {
        LabelPlace {
            start: slot[0] as usize,
            size: slot[1] as usize,
            offset: slot[2] as usize,
        }
    }
}

// Stores a label as the k-th, where there is room.
pub(crate) fn put_slot(labels: &mut [Slot], k: usize, l: LabelPlace)
    requires { (l.start < 4294967296) × (l.size < 4294967296) × (l.offset < 4294967296) }
    ensures { labels.new ≡ set labels.old k (l.start ∷ l.size ∷ l.offset ∷ []) }
{
    if k < labels.len() {
        labels[k] = [l.start as u32, l.size as u32, l.offset as u32];
    }
}
