// Tests of the bag with a case's events and clocks, each with a holder that keeps the slots in a plain struct and lends them at each call.
// There is no heap, so a holder has both the slots and their count.
// The holders are two structs, since a generic one owes at every call that an array of its records fits in memory.
#![tactic(auto)]

mod clock;
mod event;
mod sequences;
