//! What comes behind the records: how many frames are in use.
ghost use Rattle.shared_leaves.specs.Cache.{kept_of};
ghost use Rattle.courses.specs.Ending.{EndsIn};
ghost use Rattle.shared_economy.specs.Counts.{frames};
ghost use Rattle.share_command.specs.Share.{frames_text};

use courses::{Exit, end_with};
use coy_io::Sink;
use coy_text::LineBuf;
use kernel_core::Machine;
use shared_leaves::SharedLeaves;

/// Writes how many frames are in use. Nothing is fetched for it.
pub(crate) fn tell<K: Sink>(machine: &Machine<SharedLeaves>, output: &mut K) -> Exit
    ensures { let kept = kept_of machine.now.translator in
        EndsIn K.taken K.faults output.old output.new result
        (record { text = frames_text (frames kept); exit = Exit.Done }) }
{
    tell_frames(machine.translator().frames(), output)
}

/// Writes the line of so many frames.
#[tactic(auto, unfolding(crate::specs::Share::frames_text), using(coy_text::proofs::NumeralLaws::length_decimal))]
fn tell_frames<K: Sink>(frames: u32, output: &mut K) -> Exit
    ensures { EndsIn K.taken K.faults output.old output.new result
        (record { text = frames_text frames; exit = Exit.Done }) }
{
    let mut line = LineBuf::new();
    line.push_word("frames ");
    line.push_dec(frames as u64);
    line.push_word("\n");
    end_with(line.as_bytes(), Exit::Done, output)
}
