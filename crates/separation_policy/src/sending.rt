//! The laws of policies whose domains send each other messages. The calls change nothing: what they say holds for all policies
//! and states.
ghost use Rattle.separation_policy.specs.SendingLaws.{AcceptLaw, DeafLaw, DeafToLaw, DomainCutLaw, SendIntegrityLaw, SendLaw, SendNoninterferenceLaw, SendViewLaw, SilentLaw, WiderLaw};

use confinement::isolation::isolation;

/// A policy in which nobody sends holds exactly where it does as a policy without messages.
pub fn silent_law()
    ensures { SilentLaw }
{}

/// A policy that holds without messages holds with whoever sends to whom besides, where no domain is plain.
pub fn wider_law()
    ensures { WiderLaw }
{}

/// Where a policy holds, the cut between what a domain may do and all else holds for it.
pub fn domain_cut_law()
    ensures { DomainCutLaw }
{}

/// An event of a process reaches no further than its domain sends.
pub fn send_law()
    ensures { SendLaw }
{}

/// An event leaves deaf each domain that was but that of the process which performs it.
pub fn deaf_law()
    ensures { DeafLaw }
{}

/// Where all domains are deaf, all whom a domain calls are deaf to it.
pub fn deaf_to_law()
    ensures { DeafToLaw }
{}

/// A domain of which no process accepts a capability is deaf.
pub fn accept_law()
    ensures { AcceptLaw }
{}

/// Where a policy holds, nobody changes more than he may write and whom he may tell, as long as each sender is plain or
/// those whom it calls are deaf.
pub fn send_integrity()
    ensures { SendIntegrityLaw }
{}

/// Where a policy holds, the cuts between the views of domains and all else do.
pub fn send_view_law()
    ensures { SendViewLaw }
{}

/// Where a policy holds, nobody sees beyond his view.
pub fn send_noninterference()
    ensures { SendNoninterferenceLaw }
{
    isolation();
}
