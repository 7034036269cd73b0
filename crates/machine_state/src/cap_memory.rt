//! What a process reaches by its space: the slots of capability pages.
ghost use Rattle.std.specs.Prelude.{◌≡◌, ◌<◌, ◌+◌, [], ◌∷◌, false, IfOk, IfErr};
ghost use Rattle.cap_format.specs.declared.kind.CapKind.TheVariants.{Process};
ghost use Rattle.object_store.specs.Store.{size_of};
ghost use Rattle.object_store.specs.Meaning.{meaning};
ghost use Rattle.object_store.specs.Ahead.{IsBehind};
ghost use Rattle.walk_meaning.specs.Walk.{is_data};
ghost use Rattle.walk_meaning.specs.Trail.{slots};
ghost use Rattle.walk_engine.specs.Answer.{HandlerLives, answer_meaning};
ghost use Rattle.machine_state.specs.State.{state_of, space_of};
ghost use Rattle.machine_state.specs.Outcome.{cappage_name};
ghost use Rattle.machine_state.specs.Came.{Leaves};
ghost use Rattle.machine_state.specs.CapAccess.{cap_access, cap_found, cap_stored};
ghost use Rattle.machine_state.specs.Faulting.{place_map};

use crate::machine::Machine;
use cap_format::{Cap, CapKind};
use operations::read_through;
use std::sync::ledger::Ledger;
use steps::Steps;
use walk_engine::{Trail, Translator, walk};
use walk_meaning::{Kind, Place, WalkFault};

impl<T: Translator> Machine<T> {
    /// A walk of a process's space to a slot of a capability page. No translator is asked: none keeps such walks.
    #[tactic(auto, using(crate::proofs::Changed::cap_page))]
    pub fn cap_access<L: Ledger>(
        &self,
        p: u16,
        address: u32,
        kind: Kind,
        fetches: &mut Steps<L>,
    ) -> Result<Place, WalkFault>
        requires there { p < size_of self.now.objects.items Process }
        requires capability { is_data kind ≡ false }
        ensures answer { answer_meaning result ≡ cap_access (state_of self.now) p address kind }
        ensures means { let f = meaning self.now.objects.items in
            place_map f result ≡ cap_access (state_of self.now) p address kind }
        ensures page { IfOk result
            (λ place. place.number < size_of self.now.objects.items CapKind.CapPage) }
        ensures within { IfOk result (λ place. place.offset < 4096) }
        ensures handler { IfErr result
            (λ fault. HandlerLives self.now.objects.items fault.handler) }
        ensures counted { let s = state_of self.now in
            fetches.new ≡ fetches.old + slots s.store.items (space_of s p) address kind }
    {
        let space = self.space(p);
        let mut trail = Trail::new();
        walk(&self.objects, space, address, kind, &mut trail, fetches)
    }

    /// The capability at a place, weakened where the way there is weak.
    pub fn cap_at(&self, place: Place) -> Cap
        requires page { place.number < size_of self.now.objects.items CapKind.CapPage }
        requires within { place.offset < 4096 }
        ensures means { meaning self.now.objects.items result ≡
            cap_found (state_of self.now) place }
        ensures behind { IsBehind self.now.objects.items result }
    {
        let slot = (place.offset / 16) as u8;
        let cap = self.objects.cappage(place.number).get(slot);
        read_through(place.restr, cap)
    }

    /// Writes a capability to a place.
    #[tactic(auto, using(object_store::proofs::Stays::stays_cappage))]
    pub fn put_cap(&mut self, place: Place, cap: Cap)
        requires page { place.number < size_of self.old.objects.items CapKind.CapPage }
        requires within { place.offset < 4096 }
        requires behind { IsBehind self.old.objects.items cap }
        ensures state { let meant = meaning self.old.objects.items cap in
            state_of self.new ≡ cap_stored (state_of self.old) place meant }
        ensures leaves { Leaves (cappage_name place.number ∷ []) self.old self.new }
        ensures translator { self.new.translator ≡ self.old.translator }
        ensures queues { self.new.queues ≡ self.old.queues }
    {
        let slot = (place.offset / 16) as u8;
        self.objects.cappage_mut(place.number).set(slot, cap);
    }
}
