// Why bytes are no chart.
ghost use Rattle.std.specs.Prelude.{◌≡◌};
ghost use Rattle.layout.specs.Numbers.{fault_number};
ghost use Rattle.layout.specs.declared.refusal.ReadError.TheVariants.{Invalid, Memory};

use std::alloc::AllocFailed;

// What is wrong with the bytes, by the number by which it is reported.
#[derive(Clone, Copy)]
pub enum Fault {
    // the bytes end too early
    Short = 11,
    // the number of nodes or of edges is out of range
    Count = 12,
    // a map has a wrong bit, or lacks one
    Map = 13,
    // a field, a guard's count or a condition is out of range
    Field = 14,
    // bytes are left over
    Left = 15,
}

impl Fault {
    // The number by which the fault is reported.
    pub fn number(self) -> u8
        ensures { result ≡ fault_number self }
    {
        self as u8
    }

    // The refusal of bytes that have this fault at the place.
    pub fn at(self, place: usize) -> Refusal
        ensures fault { result.fault ≡ self }
        ensures place { result.place ≡ place }
    {
        Refusal { fault: self, place }
    }
}

// What is wrong, and at which byte.
#[derive(Clone, Copy)]
pub struct Refusal {
    pub fault: Fault,
    pub place: usize,
}

// What reading can end with in place of a chart's records.
#[derive(Clone, Copy)]
pub enum ReadError {
    // the bytes are refused
    Invalid(Refusal),
    // there is no memory for the records
    Memory,
}

impl From<Refusal> for ReadError {
    ghost from_gives = { λ e r. r ≡ Invalid e };

    fn from(e: Refusal) -> ReadError {
        ReadError::Invalid(e)
    }
}

impl<T: Drop> From<AllocFailed<T>> for ReadError {
    ghost from_gives = { λ _ r. r ≡ Memory };

    fn from(_e: AllocFailed<T>) -> ReadError {
        ReadError::Memory
    }
}
