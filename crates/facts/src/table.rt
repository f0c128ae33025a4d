// A fact book with a place for each attribute.
ghost use Rattle.std.specs.Prelude.{◌≡◌, replicate, None};
ghost use Rattle.facts.specs.Facts.{Facts};

use crate::attribute::Attribute;
use crate::{FactBook, Refusal};

#[derive(Clone, Copy)]
pub struct Table {
    values: [Option<u32>; 16],
    ghost ok: { Facts values },
}

impl Table {
    // All attributes absent.
    pub fn new() -> Table
        ensures { result.values ≡ replicate 16 None }
    {
        Table { values: [None; 16] }
    }
}

impl FactBook for Table {
    ghost facts = { λ t. t.values };

    ghost sixteen = { λ t. t.ok };

    fn look(&self, attribute: u8) -> Result<Option<u32>, Refusal> {
        Ok(self.values[Attribute::try_from(attribute)?.index])
    }

    fn set(&mut self, attribute: u8, value: Option<u32>) -> Result<(), Refusal> {
        self.values[Attribute::try_from(attribute)?.index] = value;
        Ok(())
    }
}
