//! The last lines of the program.
ghost use Rattle.std.specs.Prelude.{◌≡◌, ◌≤◌, [], length};
ghost use Rattle.courses.specs.Names.{fault_name, schedule_fault_name, image_word_name, cut_fault_name, policy_fault_name, question_fault_name};
ghost use Rattle.courses.specs.Ending.{Concludes, EndsIn, IsGiven, offset_text, refusal_text};

use crate::exit::Exit;
use coy_io::{Sink, put_all};
use coy_text::LineBuf;
use image_binary::ImageWord;
use listing_read::{CutFault, Fault, PolicyFault, QuestionFault, ScheduleFault};

/// Writes the last bytes of the program.
pub fn end_with<K: Sink>(bytes: &[u8], exit: Exit, output: &mut K) -> Exit
    requires { IsGiven exit }
    ensures { EndsIn K.taken K.faults output.old output.new result
        (record { text = bytes.now; exit = exit }) }
{
    match put_all(output, bytes) {
        Ok(()) => exit,
        Err(_) => Exit::WriteFault,
    }
}

/// Ends a call whose lines gave this exit: tells it by its line, where it has one and nothing failed before.
pub fn conclude<K: Sink>(exit: Exit, output: &mut K) -> Exit
    ensures { Concludes K.taken K.faults exit output.old output.new result }
{
    match exit {
        Exit::ListingRefused { line, fault } => refuse(line, fault_name(fault), exit, output),
        Exit::ScheduleRefused { line, fault } => {
            refuse(line, schedule_fault_name(fault), exit, output)
        }
        Exit::CutRefused { line, fault } => refuse(line, cut_fault_name(fault), exit, output),
        Exit::PolicyRefused { line, fault } => refuse(line, policy_fault_name(fault), exit, output),
        Exit::QuestionRefused { line, fault } => {
            refuse(line, question_fault_name(fault), exit, output)
        }
        Exit::ImageRefused { offset, fault } => {
            refuse_at(offset, image_word_name(fault), exit, output)
        }
        Exit::TooLong => end_with(b"too long\n".as_slice(), exit, output),
        Exit::Done | Exit::Usage | Exit::Crossings | Exit::Violated | Exit::Open => {
            end_with(b"".as_slice(), exit, output)
        }
        Exit::ReadFault | Exit::WriteFault | Exit::OutOfMemory => exit,
    }
}

#[tactic(auto, using(coy_text::proofs::NumeralLaws::length_decimal))]
fn refuse<K: Sink>(number: u32, name: &str, exit: Exit, output: &mut K) -> Exit
    requires name { length name.now ≤ 20 }
    requires exit { IsGiven exit }
    ensures { EndsIn K.taken K.faults output.old output.new result
        (record { text = refusal_text number name.now; exit = exit }) }
{
    let mut line = LineBuf::new();
    line.push_word("refused ");
    line.push_dec(number as u64);
    line.push_word(" ");
    line.push_word(name);
    line.push_word("\n");
    end_with(line.as_bytes(), exit, output)
}

fn refuse_at<K: Sink>(offset: u32, name: &str, exit: Exit, output: &mut K) -> Exit
    requires name { length name.now ≤ 20 }
    requires exit { IsGiven exit }
    ensures { EndsIn K.taken K.faults output.old output.new result
        (record { text = offset_text offset name.now; exit = exit }) }
{
    let mut line = LineBuf::new();
    push_offset(offset, name, &mut line);
    end_with(line.as_bytes(), exit, output)
}

#[tactic(auto, unfolding(crate::specs::Ending::offset_text), using(coy_text::proofs::NumeralLaws::length_decimal))]
fn push_offset(offset: u32, name: &str, line: &mut LineBuf)
    requires name { length name.now ≤ 20 }
    requires line { line.old ≡ [] }
    ensures { line.new ≡ offset_text offset name.now }
{
    line.push_word("refused at ");
    line.push_dec(offset as u64);
    line.push_word(" ");
    line.push_word(name);
    line.push_word("\n");
}

fn fault_name(fault: Fault) -> &'static str
    ensures name { result.now ≡ fault_name fault }
    ensures short { length result.now ≤ 20 }
{
    match fault {
        Fault::LineTooLong => "LineTooLong",
        Fault::BadByte => "BadByte",
        Fault::BadHeader => "BadHeader",
        Fault::BadMachine => "BadMachine",
        Fault::NoEnd => "NoEnd",
        Fault::UnknownStatement => "UnknownStatement",
        Fault::WrongWords => "WrongWords",
        Fault::BadNumber => "BadNumber",
        Fault::NoObject => "NoObject",
        Fault::BadValue => "BadValue",
        Fault::BadHex => "BadHex",
        Fault::BadInstruction => "BadInstruction",
        Fault::BadCap => "BadCap",
        Fault::BadGuard => "BadGuard",
        Fault::BadName => "BadName",
        Fault::NameTaken => "NameTaken",
        Fault::NameUnknown => "NameUnknown",
    }
}

fn schedule_fault_name(fault: ScheduleFault) -> &'static str
    ensures name { result.now ≡ schedule_fault_name fault }
    ensures short { length result.now ≤ 20 }
{
    match fault {
        ScheduleFault::LineTooLong => "LineTooLong",
        ScheduleFault::BadByte => "BadByte",
        ScheduleFault::UnknownEvent => "UnknownEvent",
        ScheduleFault::WrongWords => "WrongWords",
        ScheduleFault::BadNumber => "BadNumber",
        ScheduleFault::NoHart => "NoHart",
        ScheduleFault::BadRepeat => "BadRepeat",
        ScheduleFault::EventInPack => "EventInPack",
    }
}

fn image_word_name(fault: ImageWord) -> &'static str
    ensures name { result.now ≡ image_word_name fault }
    ensures short { length result.now ≤ 20 }
{
    match fault {
        ImageWord::Cut => "Cut",
        ImageWord::BadMagic => "BadMagic",
        ImageWord::BadMachine => "BadMachine",
        ImageWord::BadType => "BadType",
        ImageWord::BadCap => "BadCap",
        ImageWord::BadInstruction => "BadInstruction",
        ImageWord::NoObject => "NoObject",
        ImageWord::BadValue => "BadValue",
        ImageWord::Trailing => "Trailing",
    }
}

fn cut_fault_name(fault: CutFault) -> &'static str
    ensures name { result.now ≡ cut_fault_name fault }
    ensures short { length result.now ≤ 20 }
{
    match fault {
        CutFault::LineTooLong => "LineTooLong",
        CutFault::BadByte => "BadByte",
        CutFault::UnknownCut => "UnknownCut",
        CutFault::WrongWords => "WrongWords",
        CutFault::BadValue => "BadValue",
        CutFault::BadNumber => "BadNumber",
        CutFault::NoObject => "NoObject",
        CutFault::BadOrder => "BadOrder",
    }
}

fn policy_fault_name(fault: PolicyFault) -> &'static str
    ensures name { result.now ≡ policy_fault_name fault }
    ensures short { length result.now ≤ 20 }
{
    match fault {
        PolicyFault::LineTooLong => "LineTooLong",
        PolicyFault::BadByte => "BadByte",
        PolicyFault::UnknownPolicy => "UnknownPolicy",
        PolicyFault::WrongWords => "WrongWords",
        PolicyFault::BadName => "BadName",
        PolicyFault::TooManyDomains => "TooManyDomains",
        PolicyFault::BadValue => "BadValue",
        PolicyFault::BadNumber => "BadNumber",
        PolicyFault::NoObject => "NoObject",
        PolicyFault::BadOrder => "BadOrder",
        PolicyFault::Taken => "Taken",
        PolicyFault::NoDomain => "NoDomain",
        PolicyFault::NameTaken => "NameTaken",
        PolicyFault::NotFirst => "NotFirst",
        PolicyFault::NoEnd => "NoEnd",
    }
}

fn question_fault_name(fault: QuestionFault) -> &'static str
    ensures name { result.now ≡ question_fault_name fault }
    ensures short { length result.now ≤ 20 }
{
    match fault {
        QuestionFault::LineTooLong => "LineTooLong",
        QuestionFault::BadByte => "BadByte",
        QuestionFault::UnknownQuestion => "UnknownQuestion",
        QuestionFault::UnknownEvent => "UnknownEvent",
        QuestionFault::UnknownAtom => "UnknownAtom",
        QuestionFault::WrongWords => "WrongWords",
        QuestionFault::BadNumber => "BadNumber",
        QuestionFault::NoHart => "NoHart",
        QuestionFault::BadRepeat => "BadRepeat",
        QuestionFault::BadValue => "BadValue",
        QuestionFault::NoObject => "NoObject",
        QuestionFault::BadCode => "BadCode",
        QuestionFault::BadOrder => "BadOrder",
        QuestionFault::BadRegister => "BadRegister",
        QuestionFault::BadOffset => "BadOffset",
        QuestionFault::BadLimit => "BadLimit",
        QuestionFault::BadTerm => "BadTerm",
        QuestionFault::Taken => "Taken",
        QuestionFault::WrongChoices => "WrongChoices",
        QuestionFault::TooManyProcesses => "TooManyProcesses",
        QuestionFault::NoEnd => "NoEnd",
        QuestionFault::OfPolicy(fault) => policy_fault_name(fault),
    }
}
