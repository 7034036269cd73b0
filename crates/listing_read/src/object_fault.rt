//! What can be wrong with a line behind a listing that names objects: of a cut, of a policy, or of a
//! question.

/// What is wrong with fields that name objects. Where several hold, the first of the line counts.
#[derive(Clone, Copy)]
pub enum FieldFault {
    /// A word is that of no kind of objects.
    BadValue,
    /// A field is no number.
    BadNumber,
    /// The machine has no object of this number.
    NoObject,
    /// The last object stands before the first.
    BadOrder,
}

/// What is wrong with a line of a cut. Where several hold, the first of the line counts.
#[derive(Clone, Copy, Debug)]
pub enum CutFault {
    /// The line has more than 512 bytes.
    LineTooLong,
    /// A byte is neither a space nor a visible character of ASCII.
    BadByte,
    /// The first word is not `left`.
    UnknownCut,
    /// The line has another number of words.
    WrongWords,
    /// The second word is that of no kind of objects.
    BadValue,
    /// A field is no number.
    BadNumber,
    /// The machine has no object of this number.
    NoObject,
    /// The last object stands before the first.
    BadOrder,
}

impl From<FieldFault> for CutFault {
    ghost use Rattle.std.specs.Prelude.{◌≡◌};
    ghost use Rattle.listing_read.specs.ObjectFaults.{cut_fault};

    ghost from_gives = { λ fault e. e ≡ cut_fault fault };

    fn from(fault: FieldFault) -> CutFault {
        match fault {
            FieldFault::BadValue => CutFault::BadValue,
            FieldFault::BadNumber => CutFault::BadNumber,
            FieldFault::NoObject => CutFault::NoObject,
            FieldFault::BadOrder => CutFault::BadOrder,
        }
    }
}

/// What is wrong with a line of a policy. Where several hold, the first of the line counts.
#[derive(Clone, Copy)]
pub enum PolicyFault {
    /// The line has more than 512 bytes.
    LineTooLong,
    /// A byte is neither a space nor a visible character of ASCII.
    BadByte,
    /// The first word is that of no line of a policy.
    UnknownPolicy,
    /// The line has another number of words.
    WrongWords,
    /// A word is no name of a domain.
    BadName,
    /// The domain would be one more than 64.
    TooManyDomains,
    /// A word is that of no kind of objects.
    BadValue,
    /// A field is no number.
    BadNumber,
    /// The machine has no object of this number.
    NoObject,
    /// The last object stands before the first.
    BadOrder,
    /// A line gave one of the objects to another domain.
    Taken,
    /// There is no domain of this name.
    NoDomain,
    /// There is a domain of this name already.
    NameTaken,
    /// The line has to be the first of its policy.
    NotFirst,
    /// The input ends before the line `end` of the policy.
    NoEnd,
}

impl From<FieldFault> for PolicyFault {
    ghost use Rattle.std.specs.Prelude.{◌≡◌};
    ghost use Rattle.listing_read.specs.ObjectFaults.{policy_fault};

    ghost from_gives = { λ fault e. e ≡ policy_fault fault };

    fn from(fault: FieldFault) -> PolicyFault {
        match fault {
            FieldFault::BadValue => PolicyFault::BadValue,
            FieldFault::BadNumber => PolicyFault::BadNumber,
            FieldFault::NoObject => PolicyFault::NoObject,
            FieldFault::BadOrder => PolicyFault::BadOrder,
        }
    }
}

/// What is wrong with a line of a question. Where several hold, the first of the line counts.
#[derive(Clone, Copy)]
pub enum QuestionFault {
    /// The line has more than 512 bytes.
    LineTooLong,
    /// A byte is neither a space nor a visible character of ASCII.
    BadByte,
    /// The first word is that of no line of a question.
    UnknownQuestion,
    /// What may come is neither `step` nor `run` nor `tick`.
    UnknownEvent,
    /// The first word of an atom is that of none.
    UnknownAtom,
    /// The line, or an atom of it, has another number of words.
    WrongWords,
    /// A field is no number.
    BadNumber,
    /// The machine has no such hart.
    NoHart,
    /// The number of steps is not from 1 to 1,000,000.
    BadRepeat,
    /// A word is that of no kind of objects.
    BadValue,
    /// The machine has no object of this number.
    NoObject,
    /// A word is the name of no fault.
    BadCode,
    /// The last address stands before the first.
    BadOrder,
    /// The number is that of no register.
    BadRegister,
    /// The offset is behind the page's last, or no multiple of how many bytes are read.
    BadOffset,
    /// No state would be kept.
    BadLimit,
    /// There is no term where one has to stand, or it stands in 16 others.
    BadTerm,
    /// Another line of the question says the same choice.
    Taken,
    /// What may come is said by a line `preempted`, and by another line as well.
    WrongChoices,
    /// The machine has more processes than a machine may have harts.
    TooManyProcesses,
    /// The input ends before the line `end` of the question.
    NoEnd,
    /// What is wrong with a line of the policy.
    OfPolicy(PolicyFault),
}

impl From<FieldFault> for QuestionFault {
    ghost use Rattle.std.specs.Prelude.{◌≡◌};
    ghost use Rattle.listing_read.specs.ObjectFaults.{question_fault};

    ghost from_gives = { λ fault e. e ≡ question_fault fault };

    fn from(fault: FieldFault) -> QuestionFault {
        match fault {
            FieldFault::BadValue => QuestionFault::BadValue,
            FieldFault::BadNumber => QuestionFault::BadNumber,
            FieldFault::NoObject => QuestionFault::NoObject,
            FieldFault::BadOrder => QuestionFault::BadOrder,
        }
    }
}
