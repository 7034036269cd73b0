//! Operations of the kernel on objects of the memory kinds.
ghost use Rattle.std.specs.Prelude.{◌≡◌, ℕ, ◌<◌, ◌+◌, [], ◌∷◌, true, None, IfSome};
ghost use Rattle.cap_format.specs.declared.kind.CapKind.TheVariants.{Process};
ghost use Rattle.cap_format.specs.Kind.{is_memory};
ghost use Rattle.cap_format.specs.Capability.{bare};
ghost use Rattle.object_store.specs.Store.{Items, size_of};
ghost use Rattle.object_store.specs.Meaning.{is_live, meaning};
ghost use Rattle.object_store.specs.Ahead.{IsBehind};
ghost use Rattle.object_store.specs.Object.{object_name};
ghost use Rattle.operations.specs.Change.{item_in};
ghost use Rattle.operations.specs.Changed.{DifferBy};
ghost use Rattle.operations.specs.Meaning.{reply_map};
ghost use Rattle.operations.specs.Request.{request_map};
ghost use Rattle.operations.specs.Row.{reply_of};
ghost use Rattle.operations.specs.Memory.{memory_operation};
ghost use Rattle.machine_state.specs.State.{state_of, process};
ghost use Rattle.machine_state.specs.Outcome.{spent, kept_after, spared_by};
ghost use Rattle.machine_state.specs.Came.{Leaves};
ghost use Rattle.machine_state.specs.Operation.{request_of, changed_by, change_touches, memory_touches};

use crate::machine::Machine;
use cap_format::{Cap, Item, Reply, Request};
use invocation::Invocation;
use std::sync::ledger::Ledger;
use steps::Steps;
use walk_engine::Translator;

impl<T: Translator> Machine<T> {
    /// What a process asks for by an invocation: its words, and the first capability sent.
    #[tactic(auto, using(crate::proofs::Operated::first_register))]
    pub fn request(&self, p: u16, inv: &Invocation) -> Request
        requires there { p < size_of self.now.objects.items Process }
        ensures means { request_map bare result ≡
            request_of (process (state_of self.now) p) inv.now }
        ensures live { is_live self.now.objects.items result.sent ≡ true }
    {
        let words = inv.words();
        let sent = match inv.sent().as_slice().get(0).copied() {
            Some(register) => self.objects.live(self.capability(p, register)),
            None => Cap::null(),
        };
        Request { words, sent }
    }

    /// Does what is asked of a capability of a memory kind, and tells its translator the item that changed.
    pub fn operate<L: Ledger>(
        &mut self,
        cap: Cap,
        request: Request,
        fetches: &mut Steps<L>,
    ) -> Reply
        requires kind { is_memory cap.kind ≡ true }
        requires live { is_live self.old.objects.items cap ≡ true }
        requires sent { is_live self.old.objects.items request.sent ≡ true }
        ensures means { let asked = request_map bare request in
            let settled = memory_operation (state_of self.old).store (bare cap) asked in
            reply_map (meaning self.new.objects.items) result ≡ reply_of settled }
        ensures behind { IfSome result.cap (IsBehind self.new.objects.items) }
        ensures state { let asked = request_map bare request in
            let settled = memory_operation (state_of self.old).store (bare cap) asked in
            state_of self.new ≡ changed_by (state_of self.old) settled.answer.changes }
        ensures counted { let asked = request_map bare request in
            let settled = memory_operation (state_of self.old).store (bare cap) asked in
            let touches = memory_touches (bare cap) asked settled.code (item_in settled.answer.changes) in
            fetches.new ≡ fetches.old + spent T.cost T.after T.without (T.kept self.old.translator) touches }
        ensures kept { let asked = request_map bare request in
            let settled = memory_operation (state_of self.old).store (bare cap) asked in
            let touches = memory_touches (bare cap) asked settled.code (item_in settled.answer.changes) in
            T.kept self.new.translator
            ≡ kept_after T.cost T.after T.without (T.kept self.old.translator) touches }
        ensures caches { let asked = request_map bare request in
            let settled = memory_operation (state_of self.old).store (bare cap) asked in
            let touches = memory_touches (bare cap) asked settled.code (item_in settled.answer.changes) in
            (k : ℕ) → T.cache self.new.translator k
            ≡ spared_by T.after T.without T.spared T.purged (T.kept self.old.translator) touches (T.cache self.old.translator k) }
        ensures same { let asked = request_map bare request in
            let settled = memory_operation (state_of self.old).store (bare cap) asked in
            item_in settled.answer.changes ≡ None → self.new.translator ≡ self.old.translator }
        ensures leaves { Leaves (object_name cap.kind cap.object ∷ []) self.old self.new }
        ensures queues { self.new.queues ≡ self.old.queues }
    {
        self.objects.in_ranges();
        let reply = memory_caps::invoke(&mut self.objects, cap, request, fetches);
        tell_changed(&mut self.translator, reply.changed);
        self.objects.in_ranges();
        reply
    }
}

/// Tells a translator the item that changed, if one did.
pub(crate) fn tell_changed<T: Translator>(translator: &mut T, changed: Option<Item>)
    ensures coherent { (o p : Items)
        → DifferBy changed o p → T.coherent translator.old o → T.coherent translator.new p }
    ensures harts { T.harts translator.new ≡ T.harts translator.old }
    ensures kept { let kept = T.kept translator.old in
        T.kept translator.new ≡ kept_after T.cost T.after T.without kept (change_touches changed) }
    ensures caches { let kept = T.kept translator.old in
        (k : ℕ) → T.cache translator.new k
        ≡ spared_by T.after T.without T.spared T.purged kept (change_touches changed) (T.cache translator.old k) }
    ensures same { changed ≡ None → translator.new ≡ translator.old }
{
    match changed {
        Some(item) => translator.invalidate(item),
        None => {}
    }
}
