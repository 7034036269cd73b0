//! A law of messages: a function that does nothing, whose contract is the law.
ghost use Rattle.messages.specs.Laws.{FewRecords};

/// How many records come of a message.
#[tactic(auto, using(crate::proofs::Few::few_records))]
pub fn few_records()
    ensures { FewRecords }
{}
