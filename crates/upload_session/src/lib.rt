//! The session of one link: it answers each message and each reply by the mission protocol, and brings plans to the
//! dataman worker while it holds the transfer. It checks items as they come and takes no memory.
#![tactic(auto)]

mod session;
mod types;

pub use session::Session;

#[cfg(test)]
mod tests;
