//! A page of capabilities.
ghost use Rattle.std.specs.Prelude.{◌≡◌};
ghost use Rattle.cap_format.specs.Capability.{IsCapability};
ghost use Rattle.page_store.specs.CapPage.{IsCapPage, cap_at, with_cap, empty_cappage};

use cap_format::Cap;
use std::marker::Model;

/// 256 capability slots. It is large: keep it on the heap.
#[derive(Drop)]
pub struct CapPage {
    caps: [Cap; 256],
}

impl Model for CapPage {
    ghost use Rattle.std.specs.Prelude.{List};
    ghost use Rattle.cap_format.specs.Capability.{Capability};
    ghost use Rattle.page_store.specs.CapPage.{IsCapPage};

    ghost Value = { List Capability };

    ghost view = { λ p. p.caps };

    ghost invariant = { λ p. IsCapPage p.caps };
}

impl CapPage {
    pub fn new() -> CapPage
        ensures empty { result ≡ empty_cappage }
        ensures range { IsCapPage result }
    {
        CapPage { caps: nulls() }
    }

    /// Does nothing: its contract tells callers what every capability page keeps.
    pub fn tell_range(&self)
        ensures { IsCapPage self.now }
    {
        let _caps = &self.caps;
    }

    pub fn get(&self, i: u8) -> Cap
        ensures value { result ≡ cap_at self.now i }
        ensures cap_range { IsCapability result }
        ensures range { IsCapPage self.now }
    {
        self.caps[i as usize]
    }

    pub fn set(&mut self, i: u8, cap: Cap)
        ensures slot { self.new ≡ with_cap self.old i cap }
        ensures range { IsCapPage self.new }
    {
        // A capability that is read tells its ranges.
        let _kind = cap.kind();
        self.caps[i as usize] = cap;
    }

    pub fn erase(&mut self)
        ensures empty { self.new ≡ empty_cappage }
        ensures range { IsCapPage self.new }
    {
        self.caps = nulls();
    }

    /// Becomes a copy of another capability page.
    pub fn copy_from(&mut self, from: &CapPage)
        ensures copy { self.new ≡ from.now }
    {
        self.caps = from.caps;
    }
}

#[tactic(auto, unfolding(crate::specs::CapPage::empty_cappage))]
fn nulls() -> [Cap; 256]
    ensures empty { result ≡ empty_cappage }
    ensures range { IsCapPage result }
{
    [Cap::null(); 256]
}
