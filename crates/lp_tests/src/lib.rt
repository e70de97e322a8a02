//! What no row of lp_rows can say: calls by themselves, limits, failing streams and allocations, threads that share a desk, and
//! the laws at each model.
#![tactic(auto)]

#[cfg(test)]
mod tests;
