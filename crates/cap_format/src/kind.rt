//! The kinds of capabilities.

ghost use Rattle.std.specs.Prelude.{◌≡◌, ◌<◌, ◌↔◌, IsSome, IfSome};
ghost use Rattle.cap_format.specs.Kind.{number_of, kind_with, kinds, is_memory, is_window, is_counted, is_object, object_kind, restr_limit, count_limit, object_limit, payload_limit, slot_limit};

use crate::limits::{
    CAPPAGES, ENDPOINTS, GPT_SLOTS, GPTS, LAST_COUNT, PAGES, PRIORITIES, PROCESSES,
};

/// What a capability is to. The names are those of the Coyotos specification.
#[derive(Clone, Copy, Debug, PartialEq, Eq)]
pub enum CapKind {
    /// Nothing.
    Null,
    /// A page of bytes.
    Page,
    /// A page of capabilities.
    CapPage,
    /// A node of an address space.
    Gpt,
    /// A window onto the background space of a walk.
    Window,
    /// A window onto another slot of the GPT that holds it.
    LocalWindow,
    /// An endpoint, with the right to change it.
    Endpoint,
    /// The right to send to an endpoint.
    Entry,
    /// A process.
    Process,
    /// The right to run at a priority.
    Schedule,
    /// The right to obtain and to destroy any object.
    Range,
    /// The right to ask what a capability is.
    Discrim,
    /// The right to write to the log.
    KernLog,
    /// The right to halt the machine.
    SysCtl,
}

impl CapKind {
    /// The type number, 0 to 13.
    pub fn number(self) -> u8
        ensures value { result ≡ number_of self }
        ensures range { result < 14 }
    {
        match self {
            CapKind::Null => 0,
            CapKind::Page => 1,
            CapKind::CapPage => 2,
            CapKind::Gpt => 3,
            CapKind::Window => 4,
            CapKind::LocalWindow => 5,
            CapKind::Endpoint => 6,
            CapKind::Entry => 7,
            CapKind::Process => 8,
            CapKind::Schedule => 9,
            CapKind::Range => 10,
            CapKind::Discrim => 11,
            CapKind::KernLog => 12,
            CapKind::SysCtl => 13,
        }
    }

    /// The kind of a type number.
    #[tactic(auto, unfolding(crate::specs::Kind::kinds))]
    pub fn from_number(number: u32) -> Option<CapKind>
        ensures exactly { IsSome result ↔ (number < 14) }
        ensures value { IfSome result (λ kind. number_of kind ≡ number) }
        ensures kind { result ≡ kind_with number }
    {
        match number {
            0 => Some(CapKind::Null),
            1 => Some(CapKind::Page),
            2 => Some(CapKind::CapPage),
            3 => Some(CapKind::Gpt),
            4 => Some(CapKind::Window),
            5 => Some(CapKind::LocalWindow),
            6 => Some(CapKind::Endpoint),
            7 => Some(CapKind::Entry),
            8 => Some(CapKind::Process),
            9 => Some(CapKind::Schedule),
            10 => Some(CapKind::Range),
            11 => Some(CapKind::Discrim),
            12 => Some(CapKind::KernLog),
            13 => Some(CapKind::SysCtl),
            _ => None,
        }
    }

    /// Whether a walk may meet it. Memory kinds alone have a guard and restrictions.
    pub fn is_memory(self) -> bool
        ensures { result ≡ is_memory self }
    {
        matches!(
            self,
            CapKind::Page | CapKind::CapPage | CapKind::Gpt | CapKind::Window | CapKind::LocalWindow
        )
    }

    /// Whether it is one of the two windows, which have an offset.
    pub fn is_window(self) -> bool
        ensures { result ≡ is_window self }
    {
        matches!(self, CapKind::Window | CapKind::LocalWindow)
    }

    /// Whether it names an object, and so has an allocation count.
    pub fn is_counted(self) -> bool
        ensures { result ≡ is_counted self }
    {
        matches!(
            self,
            CapKind::Page
                | CapKind::CapPage
                | CapKind::Gpt
                | CapKind::Endpoint
                | CapKind::Entry
                | CapKind::Process
        )
    }

    /// Whether it is the kind of an object. An entry names an endpoint, and is none itself.
    pub fn is_object(self) -> bool
        ensures { result ≡ is_object self }
    {
        self.is_counted() && self != CapKind::Entry
    }

    /// The kind of the object that a capability of this kind names: itself, but for an entry.
    pub fn object_kind(self) -> CapKind
        ensures { result ≡ object_kind self }
    {
        if self == CapKind::Entry {
            CapKind::Endpoint
        } else {
            self
        }
    }

    /// Above every set of restrictions of this kind, as a number.
    pub fn restr_limit(self) -> u8
        ensures { result ≡ restr_limit self }
    {
        if self.is_memory() { 32 } else { 1 }
    }

    /// Above every allocation count of this kind.
    pub fn count_limit(self) -> u32
        ensures { result ≡ count_limit self }
    {
        if self.is_counted() { LAST_COUNT + 1 } else { 1 }
    }

    /// Above every object number, offset or priority of this kind.
    pub fn object_limit(self) -> u64
        ensures { result ≡ object_limit self }
    {
        match self {
            CapKind::Page => u64::from(PAGES),
            CapKind::CapPage => u64::from(CAPPAGES),
            CapKind::Gpt => u64::from(GPTS),
            CapKind::Endpoint | CapKind::Entry => u64::from(ENDPOINTS),
            CapKind::Process => u64::from(PROCESSES),
            CapKind::Window | CapKind::LocalWindow => 0x1_0000_0000,
            CapKind::Schedule => u64::from(PRIORITIES),
            CapKind::Null
            | CapKind::Range
            | CapKind::Discrim
            | CapKind::KernLog
            | CapKind::SysCtl => 1,
        }
    }

    /// Above every payload of this kind.
    pub fn payload_limit(self) -> u64
        ensures { result ≡ payload_limit self }
    {
        if self == CapKind::Entry {
            0x1_0000_0000
        } else {
            1
        }
    }

    /// Above every slot of this kind.
    pub fn slot_limit(self) -> u8
        ensures { result ≡ slot_limit self }
    {
        if self == CapKind::LocalWindow {
            GPT_SLOTS
        } else {
            1
        }
    }
}
