// One label offset, flagged or stored, and counted.
ghost use Rattle.std.specs.Prelude.{◌≡◌, ◌+◌, ◌<◌};
ghost use Rattle.list_labels.specs.Notes as notes;
ghost use Rattle.list_labels.specs.Notes.{notes_of};

// How many near offsets are flagged, and how many far ones were met: those past the flags that are from `low` on and below
// `high`.
// The flags and the stored offsets stay beside it: a struct that held them would need a clause in each function that they stay the
// same references, which is no plainer.
#[derive(Clone, Copy)]
pub struct Counts {
    pub near: usize,
    pub far: usize,
    pub low: usize,
    pub high: usize,
}

impl Counts {
    // Notes one offset: flags a near one, and stores a far one behind those that were met, where there is room.
    #[tactic(auto, unfolding(crate::specs::Notes::note))]
    pub(crate) fn note(self, flags: &mut [bool], stored: &mut [u32], x: u32) -> Counts
        requires { self.near + self.far < 18446744073709551615 }
        ensures { notes_of flags.new stored.new result ≡ notes.note (notes_of flags.old stored.old self) x }
    {
        let mut counts = self;
        let at = x as usize;
        if at < flags.len() {
            if !flags[at] {
                flags[at] = true;
                counts.near += 1;
            }
            return counts;
        }
        if self.low <= at && at < self.high {
            if self.far < stored.len() {
                stored[self.far] = x;
            }
            counts.far += 1;
        }
        counts
    }
}
