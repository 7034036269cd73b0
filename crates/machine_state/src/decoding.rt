//! Instructions by their words.
ghost use Rattle.std.specs.Prelude.{◌≡◌, ◌↔◌, IfOk, IsErr, Some, None};
ghost use Rattle.rv32_decode.specs.InRange.{InRange};
ghost use Rattle.rv32_decode.specs.Table.{insn_at};
ghost use Rattle.machine_state.specs.State.{state_of};

use crate::machine::Machine;
use rv32_decode::{Illegal, Insn};
use walk_engine::Translator;

impl<T: Translator> Machine<T> {
    /// The instruction that a word says. A word that came before is looked up among those that are kept, which shows in
    /// nothing else.
    ///
    /// # Errors
    ///
    /// `Illegal` where the word is of no row of the instruction table.
    pub fn decode(&mut self, word: u32) -> Result<Insn, Illegal>
        ensures ok { IfOk result (λ insn. insn_at word ≡ Some insn) }
        ensures illegal { IsErr result ↔ (insn_at word ≡ None) }
        ensures in_range { IfOk result InRange }
        ensures state { state_of self.new ≡ state_of self.old }
        ensures objects { self.new.objects ≡ self.old.objects }
        ensures queues { self.new.queues ≡ self.old.queues }
        ensures translator { self.new.translator ≡ self.old.translator }
    {
        self.decoder.decode(word)
    }
}
