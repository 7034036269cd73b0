//! Operations of the kernel on endpoints, processes, schedules, ranges and discrims.
ghost use Rattle.std.specs.Prelude.{◌≡◌, ℕ, true, None, IfSome};
ghost use Rattle.cap_format.specs.Capability.{bare};
ghost use Rattle.object_store.specs.Meaning.{is_live, meaning};
ghost use Rattle.object_store.specs.Ahead.{IsBehind};
ghost use Rattle.operations.specs.System.{Meant};
ghost use Rattle.operations.specs.Change.{item_in};
ghost use Rattle.operations.specs.Meaning.{reply_map};
ghost use Rattle.operations.specs.Request.{request_map};
ghost use Rattle.operations.specs.Row.{reply_of};
ghost use Rattle.operations.specs.Control.{control_operation};
ghost use Rattle.control_caps.specs.Kinds.{is_control};
ghost use Rattle.machine_state.specs.State.{state_of};
ghost use Rattle.machine_state.specs.Outcome.{kept_after, spared_by};
ghost use Rattle.machine_state.specs.Came.{Leaves};
ghost use Rattle.machine_state.specs.Operation.{changed_by, changed_names, change_touches};

use crate::machine::Machine;
use crate::operating::tell_changed;
use cap_format::{Cap, Reply, Request};
use walk_engine::Translator;

impl<T: Translator> Machine<T> {
    /// Does what is asked of a capability of one of the other kinds that answer requests, and tells its translator the
    /// item that changed in the same call.
    pub fn control(&mut self, cap: Cap, request: Request) -> Reply
        requires kind { is_control cap.kind ≡ true }
        requires live { is_live self.old.objects.items cap ≡ true }
        requires sent { is_live self.old.objects.items request.sent ≡ true }
        ensures means { let asked = request_map bare request in
            let settled = control_operation Meant (state_of self.old).store (bare cap) asked in
            reply_map (meaning self.new.objects.items) result ≡ reply_of settled }
        ensures behind { IfSome result.cap (IsBehind self.new.objects.items) }
        ensures state { let asked = request_map bare request in
            let settled = control_operation Meant (state_of self.old).store (bare cap) asked in
            state_of self.new ≡ changed_by (state_of self.old) settled.answer.changes }
        ensures kept { let asked = request_map bare request in
            let settled = control_operation Meant (state_of self.old).store (bare cap) asked in
            let touches = change_touches (item_in settled.answer.changes) in
            T.kept self.new.translator
            ≡ kept_after T.cost T.after T.without (T.kept self.old.translator) touches }
        ensures caches { let asked = request_map bare request in
            let settled = control_operation Meant (state_of self.old).store (bare cap) asked in
            let touches = change_touches (item_in settled.answer.changes) in
            (k : ℕ) → T.cache self.new.translator k
            ≡ spared_by T.after T.without T.spared T.purged (T.kept self.old.translator) touches (T.cache self.old.translator k) }
        ensures same { let asked = request_map bare request in
            let settled = control_operation Meant (state_of self.old).store (bare cap) asked in
            item_in settled.answer.changes ≡ None → self.new.translator ≡ self.old.translator }
        ensures leaves { let asked = request_map bare request in
            let settled = control_operation Meant (state_of self.old).store (bare cap) asked in
            Leaves (changed_names (state_of self.old) settled.answer.changes) self.old self.new }
    {
        let reply = control_caps::invoke(&mut self.objects, &mut self.queues, cap, request);
        tell_changed(&mut self.translator, reply.changed);
        reply
    }
}
