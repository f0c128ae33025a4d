// Fact books: what is known of a case, as sixteen attributes.
#![tactic(auto)]

ghost use Rattle.std.specs.Prelude.{◌≡◌, ℕ, List, None, Option, slice_index_or};
ghost use Rattle.facts.specs.Facts.{Facts, Looked, Changed, SetAndLooked, number_of};

mod attribute;
pub mod packed;
pub mod table;

// Why a call on a fact book was refused, with the number by which that is known outside. Nothing has changed then.
#[derive(Clone, Copy, Debug, PartialEq, Eq)]
pub enum Refusal {
    // the attribute is above 15
    NoSuchAttribute = 44,
    // a record of under two bytes, or of another length than its map asks for
    WrongLength = 45,
    // the buffer has no room for the record
    BufferTooShort = 46,
}

impl Refusal {
    pub fn number(self) -> u8
        ensures { result ≡ number_of self }
    {
        self as u8
    }
}

// A fact book knows of each attribute, 0 to 15, that it is absent or which number it has. An attribute comes as a byte: a
// narrower type would ask more of callers, and the refusal of others is an answer to them.
pub trait FactBook {
    // The facts, in the order of their attributes.
    ghost facts: { Self → List (Option ℕ) };

    // The attribute's number, or `None` where it is absent.
    fn look(&self, attribute: u8) -> Result<Option<u32>, Refusal>
        ensures { Looked (facts self.now) attribute result };

    // Gives the attribute a number, or makes it absent.
    fn set(&mut self, attribute: u8, value: Option<u32>) -> Result<(), Refusal>
        ensures { Changed (facts self.old) attribute value result (facts self.new) };

    // The same as a look, for a caller to whom an attribute above 15 is absent.
    fn value(&self, attribute: u8) -> Option<u32>
        ensures { result ≡ slice_index_or (facts self.now) attribute None }
    {
        self.look(attribute).ok().flatten()
    }

    // A law of every value of the type, so each book has it as a ghost field.
    ghost sixteen: { (b : Self) → Facts (facts b) };
}

// Sets one attribute, and then looks at one, the same or another.
pub fn set_and_look<B: FactBook>(
    book: &mut B,
    attribute: u8,
    value: Option<u32>,
    other: u8,
) -> Result<Option<u32>, Refusal>
    ensures { SetAndLooked (B.facts book.old) attribute value other result (B.facts book.new) }
{
    book.look(other)?;
    book.set(attribute, value)?;
    book.look(other)
}
