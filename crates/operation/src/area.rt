// Functions of an area: where one's body lies.
ghost use Rattle.std.specs.Prelude.{◌≡◌};
ghost use Rattle.operation.specs.Places.{located_of, Within};

use answers::refusal::Refusal;
use slices::widen::wide;

// A function's body in its area, and the id of its name.
#[derive(Clone, Copy)]
pub struct Function {
    pub start: usize,
    pub size: usize,
    pub name: usize,
}

// The bodies of functions, and for each a triple of its offset, which counts from `base`, its size and the id of its name.
#[derive(Clone, Copy)]
pub struct Area<'a> {
    pub functions: &'a [u32],
    pub bytes: &'a [u8],
    pub base: u32,
}

impl<'a> Area<'a> {
    // Looks a function up: its triple has to be in the list and its body in the area, 20, and then its size is limited, 18.
    #[tactic(auto, using(std::proofs::lemmas::Bool::Decides::nat_tests), unfolding(crate::specs::Places::located_of, spec_body::specs::Function::in_area))]
    pub fn locate(self, id: usize) -> Result<Function, Refusal>
        ensures value { result ≡ located_of self.entry.functions.now self.entry.bytes.now self.entry.base id }
        ensures within { Within self.entry.bytes.now result }
    {
        if self.functions.len() / 3 <= id {
            return Err(Refusal::NoFunction(id));
        }
        let offset = wide(self.functions[3 * id]);
        let size = wide(self.functions[3 * id + 1]);
        if offset < wide(self.base) {
            return Err(Refusal::NoFunction(id));
        }
        let start = offset - wide(self.base);
        if self.bytes.len() < start + size {
            return Err(Refusal::NoFunction(id));
        }
        if limits::BODY_LIMIT < size {
            return Err(Refusal::TooLarge);
        }
        let name = wide(self.functions[3 * id + 2]);
        Ok(Function { start, size, name })
    }
}
