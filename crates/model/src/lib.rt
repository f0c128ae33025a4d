// What a case is, what each call on it means, and the account that every run obeys.
#![tactic(auto)]

pub mod call;
pub mod clock;
pub mod clock_laws;
pub mod event;
pub mod laws;
pub mod refusal;
pub mod samples;
