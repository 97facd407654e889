// The supervisor of a parcel shuttle: the calls by lent values.
#![tactic(auto)]

pub mod answer;
pub mod flown;
pub mod refusal;
pub mod supervisor;
