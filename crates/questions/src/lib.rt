//! The questions before a call: in their order, each with the refusal where its answer is no. The
//! definitions stand in specs/, for the crates above to cite; there is no code.
#![tactic(auto)]
