//! Windows: where a capability leads that stands for a part of another GPT's space.
//!
//! A window looks into slot 14 of the background GPT, a local window into a slot of the GPT that
//! holds it. Nothing here reads a slot or knows how a walk came here.
#![tactic(auto)]

mod context;
mod resolving;

pub use context::{Context, Next};
pub use resolving::{Malformed, resolve};
