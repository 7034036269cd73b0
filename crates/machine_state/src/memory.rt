//! What a process reaches by its space: the bytes of pages.
ghost use Rattle.std.specs.Prelude.{◌≡◌, ◌≢◌, ◌<◌, ◌≤◌, ◌+◌, ◌*◌, ◌%◌, ◌^◌, ℕ, [], ◌∷◌, true, Some, Ok, IfOk, IfErr, IfSome, is_some};
ghost use Rattle.cap_format.specs.declared.kind.CapKind.TheVariants.{Process};
ghost use Rattle.object_store.specs.Store.{size_of};
ghost use Rattle.object_store.specs.Meaning.{meaning};
ghost use Rattle.schedules.specs.Queues.{hart_of};
ghost use Rattle.rv32_user.specs.Size.{IsSize};
ghost use Rattle.walk_meaning.specs.Trail.{slots};
ghost use Rattle.walk_meaning.specs.Walk.{is_data};
ghost use Rattle.walk_engine.specs.Answer.{HandlerLives, hit_meaning};
ghost use Rattle.machine_state.specs.State.{state_of, space_of, IsOnHart};
ghost use Rattle.machine_state.specs.Outcome.{page_name};
ghost use Rattle.machine_state.specs.Came.{Leaves};
ghost use Rattle.machine_state.specs.DataAccess.{data_access, number_at, written};
ghost use Rattle.machine_state.specs.Faulting.{hit_map};

use crate::machine::Machine;
use cap_format::{Cap, CapKind};
use schedules::Spot;
use std::sync::ledger::Ledger;
use steps::Steps;
use walk_engine::{Hit, Plain, Translator};
use walk_meaning::{Kind, WalkFault};

/// The number of a process's slot for its space.
const SPACE: u8 = 0;

impl<T: Translator> Machine<T> {
    /// The hart of a process that stands on one.
    pub fn hart(&self, p: u16) -> u8
        requires there { p < size_of self.now.objects.items Process }
        requires on_hart { IsOnHart self.now.queues p }
        ensures within { result < self.now.objects.harts }
        ensures there { hart_of self.now.queues result ≡ Some p }
    {
        match self.queues.place(p) {
            Spot::Hart(hart) => hart,
            _ => 0,
        }
    }

    /// The capability in the process's slot for its space.
    pub fn space(&self, p: u16) -> Cap
        requires { p < size_of self.now.objects.items Process }
        ensures { meaning self.now.objects.items result ≡ space_of (state_of self.now) p }
    {
        self.objects.process(p).slot(SPACE)
    }

    /// The answer of a fetch, load or store on a hart where it is a page that the translator finds by what it keeps: then
    /// no slot is fetched. What the translator keeps stays the same, whether it finds one or not.
    #[inline(always)]
    pub fn access_kept(&mut self, hart: u8, p: u16, address: u32, kind: Kind) -> Option<Hit>
        requires hart { hart < self.old.objects.harts }
        requires there { p < size_of self.old.objects.items Process }
        requires data { is_data kind ≡ true }
        ensures exactly { let s = state_of self.old in
            is_some result ≡ T.finds (T.kept self.old.translator) s.store.items (space_of s p) address kind }
        ensures answer { IfSome result (λ hit. Ok hit ≡ data_access (state_of self.old) p address kind) }
        ensures page { IfSome result (λ hit. hit.page < size_of self.new.objects.items CapKind.Page) }
        ensures offset { IfSome result (λ hit. hit.offset ≡ address % 4096) }
        ensures state { state_of self.new ≡ state_of self.old }
        ensures objects { self.new.objects ≡ self.old.objects }
        ensures queues { self.new.queues ≡ self.old.queues }
        ensures kept { T.kept self.new.translator ≡ T.kept self.old.translator }
        ensures caches { (k : ℕ) → k ≢ hart → T.cache self.new.translator k ≡ T.cache self.old.translator k }

        // What `access_on` would say of its count, of what is kept and of the other harts.
        ensures free { let s = state_of self.old in
            let cost = T.cost (T.kept self.old.translator) s.store.items (space_of s p) address kind in
            IfSome result (λ hit. cost ≡ 0) }
        ensures after { let s = state_of self.old in
            let after = T.after (T.kept self.old.translator) s.store.items (space_of s p) address kind in
            IfSome result (λ hit. T.kept self.new.translator ≡ after) }
        ensures others { let s = state_of self.old in
            let spared = T.spared (T.kept self.old.translator) s.store.items (space_of s p) address kind in
            IfSome result (λ hit. (k : ℕ) → k ≢ hart → T.cache self.new.translator k ≡ spared (T.cache self.old.translator k)) }
    {
        let space = self.space(p);
        self.translator
            .find_kept(&self.objects, hart, space, address, kind)
    }

    /// A fetch, load or store by the space of process `q`, on the hart on which process `p` stands.
    #[inline(always)]
    pub fn access_for<L: Ledger>(
        &mut self,
        p: u16,
        q: u16,
        address: u32,
        kind: Kind,
        fetches: &mut Steps<L>,
    ) -> Result<Hit, WalkFault>
        requires there { p < size_of self.old.objects.items Process }
        requires space { q < size_of self.old.objects.items Process }
        requires on_hart { IsOnHart self.old.queues p }
        requires data { is_data kind ≡ true }
        ensures answer { hit_meaning result ≡ data_access (state_of self.old) q address kind }
        ensures means { let f = meaning self.new.objects.items in
            hit_map f result ≡ data_access (state_of self.old) q address kind }
        ensures page { IfOk result (λ hit. hit.page < size_of self.new.objects.items CapKind.Page) }
        ensures offset { IfOk result (λ hit. hit.offset ≡ address % 4096) }
        ensures handler { IfErr result
            (λ fault. HandlerLives self.new.objects.items fault.handler) }
        ensures state { state_of self.new ≡ state_of self.old }
        ensures objects { self.new.objects ≡ self.old.objects }
        ensures queues { self.new.queues ≡ self.old.queues }
        ensures counted { let s = state_of self.old in
            let cost = T.cost (T.kept self.old.translator) s.store.items (space_of s q) address kind in
            fetches.new ≡ fetches.old + cost }
        ensures kept { let s = state_of self.old in
            let kept = T.kept self.old.translator in
            T.kept self.new.translator ≡ T.after kept s.store.items (space_of s q) address kind }

        // The caches of the harts on which the process is not are as an access elsewhere leaves them.
        ensures others { let s = state_of self.old in
            let spared = T.spared (T.kept self.old.translator) s.store.items (space_of s q) address kind in
            (k : ℕ) → hart_of self.old.queues k ≢ Some p →
            T.cache self.new.translator k ≡ spared (T.cache self.old.translator k) }
    {
        let hart = self.hart(p);
        self.access_on(hart, q, address, kind, fetches)
    }

    /// A fetch, load or store on a hart by the space of any process. A page that the translator keeps is asked for first,
    /// for which there need be no room for a fault's handler.
    #[inline(always)]
    pub fn access_on<L: Ledger>(
        &mut self,
        hart: u8,
        p: u16,
        address: u32,
        kind: Kind,
        fetches: &mut Steps<L>,
    ) -> Result<Hit, WalkFault>
        requires hart { hart < self.old.objects.harts }
        requires there { p < size_of self.old.objects.items Process }
        requires data { is_data kind ≡ true }
        ensures answer { hit_meaning result ≡ data_access (state_of self.old) p address kind }
        ensures means { let f = meaning self.new.objects.items in
            hit_map f result ≡ data_access (state_of self.old) p address kind }
        ensures page { IfOk result (λ hit. hit.page < size_of self.new.objects.items CapKind.Page) }
        ensures offset { IfOk result (λ hit. hit.offset ≡ address % 4096) }
        ensures handler { IfErr result
            (λ fault. HandlerLives self.new.objects.items fault.handler) }
        ensures state { state_of self.new ≡ state_of self.old }
        ensures objects { self.new.objects ≡ self.old.objects }
        ensures queues { self.new.queues ≡ self.old.queues }
        ensures counted { let s = state_of self.old in
            let cost = T.cost (T.kept self.old.translator) s.store.items (space_of s p) address kind in
            fetches.new ≡ fetches.old + cost }
        ensures kept { let s = state_of self.old in
            let kept = T.kept self.old.translator in
            T.kept self.new.translator ≡ T.after kept s.store.items (space_of s p) address kind }
        ensures others { let s = state_of self.old in
            let spared = T.spared (T.kept self.old.translator) s.store.items (space_of s p) address kind in
            (k : ℕ) → k ≢ hart → T.cache self.new.translator k ≡ spared (T.cache self.old.translator k) }
    {
        if let Some(hit) = self.access_kept(hart, p, address, kind) {
            return Ok(hit);
        }
        let space = self.space(p);
        self.translator
            .translate(&self.objects, hart, space, address, kind, fetches)
    }

    /// A fetch, load or store by the space of any process, as a fresh walk makes it. No translator is asked, and nothing
    /// changes.
    pub fn walk_data<L: Ledger>(
        &self,
        p: u16,
        address: u32,
        kind: Kind,
        fetches: &mut Steps<L>,
    ) -> Result<Hit, WalkFault>
        requires there { p < size_of self.now.objects.items Process }
        requires data { is_data kind ≡ true }
        ensures means { let f = meaning self.now.objects.items in
            hit_map f result ≡ data_access (state_of self.now) p address kind }
        ensures page { IfOk result (λ hit. hit.page < size_of self.now.objects.items CapKind.Page) }
        ensures offset { IfOk result (λ hit. hit.offset ≡ address % 4096) }
        ensures counted { let s = state_of self.now in
            fetches.new ≡ fetches.old + slots s.store.items (space_of s p) address kind }
    {
        let space = self.space(p);
        Plain::new().translate(&self.objects, 0, space, address, kind, fetches)
    }

    /// The little-endian number of so many bytes at a place in a page.
    pub fn number_at(&self, hit: Hit, size: u8) -> u32
        requires page { hit.page < size_of self.now.objects.items CapKind.Page }
        requires size { IsSize size }
        requires within { hit.offset + size ≤ 4096 }
        ensures value { result ≡ number_at (state_of self.now) hit size }
        ensures fits { result < 2 ^ (8 * size) }
    {
        let page = self.objects.page(hit.page);
        match size {
            1 => {
                let mut byte = [0; 1];
                page.read(hit.offset, &mut byte);
                u8::from_le_bytes(byte) as u32
            }
            2 => {
                let mut bytes = [0; 2];
                page.read(hit.offset, &mut bytes);
                u16::from_le_bytes(bytes) as u32
            }
            _ => {
                let mut bytes = [0; 4];
                page.read(hit.offset, &mut bytes);
                u32::from_le_bytes(bytes)
            }
        }
    }

    /// Writes the so many lowest bytes of a number, the lowest first, to a place in a page.
    #[tactic(auto, using(object_store::proofs::Stays::stays_page))]
    pub fn write_number(&mut self, hit: Hit, size: u8, value: u32)
        requires page { hit.page < size_of self.old.objects.items CapKind.Page }
        requires size { IsSize size }
        requires within { hit.offset + size ≤ 4096 }
        requires fits { value < 2 ^ (8 * size) }
        ensures state { state_of self.new ≡ written (state_of self.old) hit size value }
        ensures leaves { Leaves (page_name hit.page ∷ []) self.old self.new }
        ensures translator { self.new.translator ≡ self.old.translator }
        ensures queues { self.new.queues ≡ self.old.queues }
    {
        let page = self.objects.page_mut(hit.page);
        match size {
            1 => page.write(hit.offset, &[value as u8]),
            2 => page.write(hit.offset, &(value as u16).to_le_bytes()),
            _ => page.write(hit.offset, &value.to_le_bytes()),
        }
    }
}
