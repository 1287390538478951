// UTF-8 as the definition reads it: one state and one byte at a time.
ghost use Rattle.std.specs.Prelude.{◌≡◌, ℕ, ◌≤◌, eqb, length};
ghost use Rattle.std.specs.Char.{is_ascii};
ghost use Rattle.std.specs.List.{prefix_len};
ghost use Rattle.lists.specs.Choice.{pick, within};
ghost use Rattle.spec_strings.specs.Utf8.{broken, after_lead, after_next, step, is_utf8};
ghost use Rattle.strings.specs.States.{state_number};

use slices::compare::is_within;

// Where a reader stands: between characters, with so many continuation bytes to come, behind a lead byte that not every
// continuation byte may follow, or behind a byte that fits nowhere.
#[derive(Clone, Copy)]
pub enum State {
    Between,
    OneMore,
    TwoMore,
    ThreeMore,
    BehindE0,
    BehindEd,
    BehindF0,
    BehindF4,
    Broken,
}

// The state behind the first byte of a character.
#[tactic(auto, using(std::proofs::lemmas::Bool::Decides::nat_tests), unfolding(spec_strings::specs::Utf8::after_lead))]
fn after_lead(b: u8) -> State
    ensures { state_number result ≡ after_lead b }
{
    // Most bytes are ASCII; asked first, they take one test.
    if b.is_ascii() {
        return State::Between;
    }
    match b {
        194..=223 => State::OneMore,
        224 => State::BehindE0,
        237 => State::BehindEd,
        225..=239 => State::TwoMore,
        240 => State::BehindF0,
        241..=243 => State::ThreeMore,
        244 => State::BehindF4,
        _ => State::Broken,
    }
}

// The state `to` behind a continuation byte from lo to hi, and the broken one behind any other.
fn to_or_broken(lo: u8, hi: u8, b: u8, to: State) -> State
    ensures { state_number result ≡ pick (within lo hi b) (state_number to) broken }
{
    if is_within(lo, hi, b) {
        to
    } else {
        State::Broken
    }
}

impl State {
    // The state that a number stands for: each number above 8 stands for the broken one, from which every byte leads to 8.
    #[tactic(auto, using(std::proofs::lemmas::Bool::Decides::nat_tests), unfolding(spec_strings::specs::Utf8::step, spec_strings::specs::Utf8::after_next))]
    fn of_number(n: u8) -> State
        ensures { (b : ℕ) → step (state_number result) b ≡ step n b }
    {
        match n {
            0 => State::Between,
            1 => State::OneMore,
            2 => State::TwoMore,
            3 => State::ThreeMore,
            4 => State::BehindE0,
            5 => State::BehindEd,
            6 => State::BehindF0,
            7 => State::BehindF4,
            _ => State::Broken,
        }
    }

    // The number of a state.
    fn number(self) -> u8
        ensures { result ≡ state_number self }
    {
        match self {
            State::Between => 0,
            State::OneMore => 1,
            State::TwoMore => 2,
            State::ThreeMore => 3,
            State::BehindE0 => 4,
            State::BehindEd => 5,
            State::BehindF0 => 6,
            State::BehindF4 => 7,
            State::Broken => 8,
        }
    }

    // The state behind a continuation byte.
    #[tactic(auto, unfolding(spec_strings::specs::Utf8::after_next))]
    fn after_next(self, b: u8) -> State
        ensures { state_number result ≡ after_next (state_number self) b }
    {
        match self {
            State::OneMore => to_or_broken(128, 191, b, State::Between),
            State::TwoMore => to_or_broken(128, 191, b, State::OneMore),
            State::ThreeMore => to_or_broken(128, 191, b, State::TwoMore),
            State::BehindE0 => to_or_broken(160, 191, b, State::OneMore),
            State::BehindEd => to_or_broken(128, 159, b, State::OneMore),
            State::BehindF0 => to_or_broken(144, 191, b, State::TwoMore),
            State::BehindF4 => to_or_broken(128, 143, b, State::TwoMore),
            State::Between | State::Broken => State::Broken,
        }
    }

    // The state behind one byte more. A call for each byte takes a third more instructions.
    #[inline(always)]
    #[tactic(auto, unfolding(spec_strings::specs::Utf8::step))]
    pub fn step(self, b: u8) -> State
        ensures { state_number result ≡ step (state_number self) b }
    {
        match self {
            State::Between => after_lead(b),
            _ => self.after_next(b),
        }
    }

    // Whether the bytes so far end with a whole character.
    pub fn is_between(self) -> bool
        ensures { result ≡ eqb (state_number self) 0 }
    {
        matches!(self, State::Between)
    }

    // Whether a byte fits nowhere.
    pub fn is_broken(self) -> bool
        ensures { result ≡ eqb (state_number self) broken }
    {
        matches!(self, State::Broken)
    }
}

// The number of the state behind one byte more, from the number of the state before it.
pub fn step(st: u8, b: u8) -> u8
    ensures { result ≡ step st b }
{
    State::of_number(st).step(b).number()
}

// How many bytes in front are ASCII. Most bytes are, which changes nothing between characters: a run of them costs one test a byte.
fn ascii_run(s: &[u8]) -> usize
    ensures place { result ≡ prefix_len is_ascii s.now }
    ensures within { result ≤ length s.now }
{
    s.iter().take_while(|b| b.is_ascii()).count()
}

pub fn is_utf8(s: &[u8]) -> bool
    ensures { result ≡ is_utf8 s.now }
{
    let mut state = State::Between;
    let mut i = ascii_run(s);
    while i < s.len() {
        state = state.step(s[i]);
        i += 1;
        if state.is_between() {
            i += ascii_run(&s[i..]);
        }
    }
    state.is_between()
}
