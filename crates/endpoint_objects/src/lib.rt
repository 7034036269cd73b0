//! Endpoints: whom a message through an entry reaches.
//!
//! One endpoint at a time. Nothing here knows of entries, of waiting processes or of messages.
#![tactic(auto)]

mod endpoint;

pub use endpoint::Endpoint;
