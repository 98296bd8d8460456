// The readable notation: the names that its definitions share with the crates that read and write it, and how one place follows from
// another. What a reader must believe stands in specs/, what follows from it in proofs/.
#![tactic(auto)]

ghost use Rattle.std.specs.Prelude.{◌≡◌};
ghost use Rattle.meaning.specs.Tree.{is_byte};
ghost use Rattle.notation.specs.Texts.{head_in, place_after};

// Where an expression stands: the head of a list read as code, elsewhere in code, or data.
#[derive(Clone, Copy)]
pub enum Place {
    Operator,
    Code,
    Data,
}

impl Place {
    // Where the head of a list stands that stands here.
    pub fn head_in(self) -> Place
        ensures { result ≡ head_in self }
    {
        match self {
            Place::Operator | Place::Code => Place::Operator,
            Place::Data => Place::Data,
        }
    }

    // Where that stands which follows an element here: all that follows a head of 1 is data.
    pub fn after(self, one: bool) -> Place
        ensures { result ≡ place_after self one }
    {
        match self {
            Place::Operator => { if one { Place::Data } else { Place::Code } }
            Place::Code | Place::Data => self,
        }
    }
}

// The names of the operators 1 to 9, in their order.
pub const NAMES: [u8; 9] = *b"qaicfrlx=";

// Whether an atom's bytes are those of 1.
pub fn is_one(b: &[u8]) -> bool
    ensures { result ≡ is_byte 1 b.now }
{
    matches!(b, [1])
}

// What a byte does outside quotes: separate, open or close a list, begin a quote, or belong to a word.
#[derive(Clone, Copy)]
pub enum Kind {
    Blank,
    Opens,
    Closes,
    Quotes,
    Plain,
}
