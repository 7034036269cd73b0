//! Why a line of a question is not taken in.
use listing_read::QuestionFault;

/// Why a line of a question is not taken in.
#[derive(Clone, Copy)]
pub enum Untaken {
    /// The line is refused.
    Refused(QuestionFault),
    /// Memory ran out for what the line says.
    OutOfMemory,
}

impl From<QuestionFault> for Untaken {
    ghost use Rattle.std.specs.Prelude.{◌≡◌};
    ghost use Rattle.question_lines.specs.declared.fault.Untaken.TheVariants.{Refused};

    ghost from_gives = { λ fault e. e ≡ Refused fault };

    fn from(fault: QuestionFault) -> Untaken {
        Untaken::Refused(fault)
    }
}
