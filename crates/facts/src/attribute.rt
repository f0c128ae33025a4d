// What names an attribute.
ghost use Rattle.std.specs.Prelude.{◌≡◌, ◌^◌, ◌<◌, ◌≤◌, MatchResult};

use crate::Refusal;

// One of the sixteen attributes. A number from outside becomes one by `try_from`, or is refused.
#[derive(Clone, Copy)]
pub(crate) struct Attribute {
    pub(crate) index: usize,
    ghost low: { index < 16 },
}

impl Attribute {
    // The attribute's bit of a map.
    pub(crate) fn bit(self) -> u16
        ensures value { result ≡ 2 ^ self.index }
        ensures bound { 0 < result }
    {
        1 << self.index
    }
}

impl TryFrom<u8> for Attribute {
    ghost use Rattle.facts.specs.declared.Refusal.TheVariants.{NoSuchAttribute};

    type Error = Refusal;

    ghost try_from_gives = { λ n r. MatchResult r (λ a. a.index ≡ n) (λ e. (16 ≤ n) × (e ≡ NoSuchAttribute)) };

    fn try_from(number: u8) -> Result<Attribute, Refusal> {
        if number > 15 {
            return Err(Refusal::NoSuchAttribute);
        }
        Ok(Attribute {
            index: usize::from(number),
        })
    }
}
