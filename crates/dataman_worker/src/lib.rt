//! One service of the dataman worker: a request is served from the banks, and a change that is in doubt is settled
//! before anything else.
#![tactic(auto)]

mod worker;

pub use worker::serve;

#[cfg(test)]
mod tests;
