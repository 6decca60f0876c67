// Why a call refuses: one fault for each numbered refusal, and what a fault type means to proofs.
#![tactic(auto)]

pub mod display;
pub mod fault;
pub mod refusal;
