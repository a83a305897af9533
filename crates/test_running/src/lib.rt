//! The parts of a running deployment (rule ledger, caches, readers, writers): worked rows over each; drawn calls that
//! fast and plain forms answer alike; and all of them together, and the domain, beside the plain program of
//! `test_model`: the same events are made on both sides, and every reply and all that can be seen is compared.
#![tactic(auto)]

#[cfg(test)]
mod tests;
