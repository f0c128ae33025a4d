// Why a bag refuses.
ghost use Rattle.std.specs.Prelude.{◌≡◌};
ghost use Rattle.bag.specs.Refusals.{number_of};

// Each refusal has the number under which a caller is told.
#[derive(Clone, Copy, Debug, PartialEq, Eq)]
pub enum Refusal {
    // A record was put, and no slot is free.
    Full = 47,
}

impl Refusal {
    pub fn number(self) -> u8
        ensures { result ≡ number_of self }
    {
        self as u8
    }
}
