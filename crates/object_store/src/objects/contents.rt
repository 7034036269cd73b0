//! What no walk reads: the bytes of pages, the slots of capability pages, processes and endpoints, each lent.
ghost use Rattle.std.specs.Prelude.{◌≡◌, ◌<◌};
ghost use Rattle.std.specs.Borrow.{sem};
ghost use Rattle.page_store.specs.Page.{IsPage};
ghost use Rattle.page_store.specs.CapPage.{IsCapPage};
ghost use Rattle.process_objects.specs.Process.{IsProcess};
ghost use Rattle.object_store.specs.Store.{size_of, page_at, cappage_at, process_at, endpoint_at};
ghost use Rattle.object_store.specs.Lending.{LendsPage, LendsCapPage, LendsProcess, LendsEndpoint};

use super::Objects;
use cap_format::CapKind;
use endpoint_objects::Endpoint;
use page_store::{CapPage, Page};
use process_objects::Process;

impl Objects {
    pub fn page(&self, n: u16) -> &Page
        requires { n < size_of self.now.items CapKind.Page }
        ensures value { result.now ≡ page_at self.now n }
        ensures size { IsPage result.now }
    {
        let page = &self.pages[n as usize];
        page.tell_range();
        page
    }

    pub fn page_mut(&mut self, n: u16) -> &mut Page
        requires { n < size_of self.old.items CapKind.Page }
        ensures* writes_back { sem 𝓛 (LendsPage self.entry n result) }
        ensures value { result.now ≡ page_at self.old n }
        ensures size { IsPage result.now }
    {
        self.pages[n as usize].tell_range();
        &mut self.pages[n as usize]
    }

    pub fn cappage(&self, n: u16) -> &CapPage
        requires { n < size_of self.now.items CapKind.CapPage }
        ensures value { result.now ≡ cappage_at self.now n }
        ensures range { IsCapPage result.now }
    {
        let cappage = &self.cappages[n as usize];
        cappage.tell_range();
        cappage
    }

    pub fn cappage_mut(&mut self, n: u16) -> &mut CapPage
        requires { n < size_of self.old.items CapKind.CapPage }
        ensures* writes_back { sem 𝓛 (LendsCapPage self.entry n result) }
        ensures value { result.now ≡ cappage_at self.old n }
        ensures range { IsCapPage result.now }
    {
        self.cappages[n as usize].tell_range();
        &mut self.cappages[n as usize]
    }

    pub fn process(&self, n: u16) -> &Process
        requires { n < size_of self.now.items CapKind.Process }
        ensures value { result.now ≡ process_at self.now n }
        ensures range { IsProcess result.now }
    {
        let process = &self.processes[n as usize];
        process.tell_range();
        process
    }

    pub fn process_mut(&mut self, n: u16) -> &mut Process
        requires { n < size_of self.old.items CapKind.Process }
        ensures* writes_back { sem 𝓛 (LendsProcess self.entry n result) }
        ensures value { result.now ≡ process_at self.old n }
        ensures range { IsProcess result.now }
    {
        self.processes[n as usize].tell_range();
        &mut self.processes[n as usize]
    }

    pub fn endpoint(&self, n: u16) -> &Endpoint
        requires { n < size_of self.now.items CapKind.Endpoint }
        ensures { result.now ≡ endpoint_at self.now n }
    {
        &self.endpoints[n as usize]
    }

    pub fn endpoint_mut(&mut self, n: u16) -> &mut Endpoint
        requires { n < size_of self.old.items CapKind.Endpoint }
        ensures* writes_back { sem 𝓛 (LendsEndpoint self.entry n result) }
        ensures value { result.now ≡ endpoint_at self.old n }
    {
        &mut self.endpoints[n as usize]
    }
}
