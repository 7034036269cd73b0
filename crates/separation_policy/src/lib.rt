//! Policies of separation: the domain of each object and what each domain may do, when a policy holds of a machine, and what
//! holds of every run from there on: nobody changes what he may not write (integrity), and nobody sees beyond his view
//! (noninterference).
//!
//! Nothing here knows how lines give a policy, nor how it is found out whether one holds of a machine.
#![tactic(auto)]

mod closure;
mod domain_set;
mod laws;
mod object_domains;
mod policy;
mod rights;
mod sending;
mod stage;

pub use closure::Closure;
pub use domain_set::DomainSet;
pub use laws::{
    authority_law, integrity, noninterference, own_changes, plain_view_law, reads_law,
    view_cut_law, views_law, writer_law,
};
pub use policy::{DOMAIN_LIMIT, Domain, Policy};
pub use rights::Rights;
pub use sending::{
    accept_law, deaf_law, deaf_to_law, domain_cut_law, send_integrity, send_law,
    send_noninterference, send_view_law, silent_law, wider_law,
};
pub use stage::Stage;
