//! The laws of policies. The calls change nothing: what they say holds for all policies and states.
ghost use Rattle.separation_policy.specs.Laws.{AuthorityLaw, IntegrityLaw, NoninterferenceLaw, OwnChangesLaw, PlainViewLaw, ReadsLaw, ViewCutLaw, ViewsLaw, WriterLaw};

use confinement::authority::{beside, bounds};
use confinement::isolation::isolation;

/// Who reads whom is decided.
pub fn reads_law()
    ensures { ReadsLaw }
{}

/// Whether one that a domain reads writes another is decided.
pub fn writer_law()
    ensures { WriterLaw }
{}

/// Who is in whose view is decided.
pub fn views_law()
    ensures { ViewsLaw }
{}

/// Where no domain writes another, the view of each is what it reads.
pub fn plain_view_law()
    ensures { PlainViewLaw }
{}

/// A policy holds exactly where what each domain may do, and what it may look at, is bounded.
pub fn authority_law()
    ensures { AuthorityLaw }
{}

/// Where a policy holds, the cuts between the views of domains and all else do.
pub fn view_cut_law()
    ensures { ViewCutLaw }
{}

/// Where a policy holds, nobody changes what he may not write, and it holds for good.
pub fn integrity()
    ensures { IntegrityLaw }
{
    bounds();
    beside();
}

/// Where a policy holds, an object is changed by processes of its own domain alone, or, a page, by those of domains that
/// write it.
pub fn own_changes()
    ensures { OwnChangesLaw }
{
    bounds();
    beside();
}

/// Where a policy holds, nobody sees beyond his view.
pub fn noninterference()
    ensures { NoninterferenceLaw }
{
    isolation();
}
