//! Tables of empty objects.
ghost use Rattle.std.specs.Prelude.{◌≡◌, replicate, IfOk};
ghost use Rattle.page_store.specs.Page.{empty_page};
ghost use Rattle.page_store.specs.CapPage.{empty_cappage};
ghost use Rattle.gpt_objects.specs.Gpt.{empty_gpt};
ghost use Rattle.process_objects.specs.Process.{empty_process};
ghost use Rattle.endpoint_objects.specs.Endpoint.{empty_endpoint};

use cap_format::OutOfMemory;
use endpoint_objects::Endpoint;
use gpt_objects::Gpt;
use page_store::{CapPage, Page};
use process_objects::Process;
use std::alloc::Global;

/// A kind of objects.
pub(crate) trait Empty: Drop {
    ghost empty: { Self };

    /// The empty one.
    fn empty() -> Self
        ensures { result ≡ empty };
}

impl Empty for Page {
    ghost empty = { empty_page };

    fn empty() -> Page {
        Page::new()
    }
}

impl Empty for CapPage {
    ghost empty = { empty_cappage };

    fn empty() -> CapPage {
        CapPage::new()
    }
}

impl Empty for Gpt {
    ghost empty = { empty_gpt };

    fn empty() -> Gpt {
        Gpt::new()
    }
}

impl Empty for Process {
    ghost empty = { empty_process };

    fn empty() -> Process {
        Process::new()
    }
}

impl Empty for Endpoint {
    ghost empty = { empty_endpoint };

    fn empty() -> Endpoint {
        Endpoint::new()
    }
}

/// This many empty objects.
pub(crate) fn table<T: Empty>(alloc: Global, size: u16) -> Result<Vec<T>, OutOfMemory>
    ensures { IfOk result (λ table. table.items ≡ replicate size T.empty) }
{
    let mut table = Vec::with_capacity(alloc, size as usize)?;
    for _ in 0..size {
        table.push(T::empty())?;
    }
    Ok(table)
}
