//! What is found of a policy in a machine.
use crate::crossing::Crossing;
use crate::marks::Marks;

/// All that a policy doesn't allow in a machine, and which domains hold what is shared by all.
#[derive(Drop)]
pub struct Found {
    /// Capabilities in the order in which a state is printed, and then processes that sleep. Empty where the policy holds.
    pub crossings: Vec<Crossing>,
    /// The domains of which an object holds SysCtl or KernLog.
    pub marks: Marks,
}
