//! The forms of statements.
ghost use Rattle.std.specs.Prelude.{◌≡◌, ◌≤◌};
ghost use Rattle.image_binary.specs.Fields.{Gives};
ghost use Rattle.image_binary.specs.Statements.{form_number, form_with, form_of, form};

use crate::fault::ImageWord;
use crate::front::{front, wrong};
use crate::numbers::u8_in;
use crate::stop::Stop;
use listing_read::Statement;

/// A form of statements, named as in a listing.
#[derive(Clone, Copy)]
pub enum Form {
    Page,
    Code,
    CapSlot,
    Gpt,
    GptSlot,
    Endpoint,
    Process,
    Reg,
    CapReg,
    Count,
    Region,
}

impl Form {
    /// The form's number, 1 to 11.
    pub(crate) fn number(self) -> u8
        ensures { result ≡ form_number self }
    {
        match self {
            Form::Page => 1,
            Form::Code => 2,
            Form::CapSlot => 3,
            Form::Gpt => 4,
            Form::GptSlot => 5,
            Form::Endpoint => 6,
            Form::Process => 7,
            Form::Reg => 8,
            Form::CapReg => 9,
            Form::Count => 10,
            Form::Region => 11,
        }
    }

    /// The form that has a number.
    #[tactic(auto, unfolding(crate::specs::Statements::all_forms))]
    fn from_number(number: u8) -> Option<Form>
        ensures { result ≡ form_with number }
    {
        match number {
            1 => Some(Form::Page),
            2 => Some(Form::Code),
            3 => Some(Form::CapSlot),
            4 => Some(Form::Gpt),
            5 => Some(Form::GptSlot),
            6 => Some(Form::Endpoint),
            7 => Some(Form::Process),
            8 => Some(Form::Reg),
            9 => Some(Form::CapReg),
            10 => Some(Form::Count),
            11 => Some(Form::Region),
            _ => None,
        }
    }

    /// The form of a statement.
    pub(crate) fn of(statement: &Statement) -> Form
        ensures { result ≡ form_of statement.now }
    {
        match statement {
            Statement::Page { .. } => Form::Page,
            Statement::Code { .. } => Form::Code,
            Statement::CapSlot { .. } => Form::CapSlot,
            Statement::Gpt { .. } => Form::Gpt,
            Statement::GptSlot { .. } => Form::GptSlot,
            Statement::Endpoint { .. } => Form::Endpoint,
            Statement::Process { .. } => Form::Process,
            Statement::Reg { .. } => Form::Reg,
            Statement::CapReg { .. } => Form::CapReg,
            Statement::Count { .. } => Form::Count,
            Statement::Region { .. } => Form::Region,
        }
    }
}

/// The form of the statement that the bytes begin with.
#[tactic(auto, unfolding(crate::specs::Fields::field_of, crate::specs::Statements::form_judged))]
pub(crate) fn form_of_statement(bytes: &[u8]) -> Result<(Form, &[u8]), Stop>
    ensures { Gives result (form.read bytes.now) }
{
    let (front, rest) = front(1, bytes)?;
    let Some(form) = Form::from_number(u8_in(front)) else {
        return Err(wrong(bytes, ImageWord::BadType));
    };
    Ok((form, rest))
}
