//! How the kernel answers.

ghost use Rattle.std.specs.Prelude.{◌≡◌, ◌<◌};
ghost use Rattle.cap_format.specs.Codes.{reply_number};

/// The code of a kernel reply. Where several apply, the lowest number is given.
#[derive(Clone, Copy, PartialEq, Eq)]
pub enum Code {
    Ok,
    InvalidCap,
    UnknownRequest,
    NoAccess,
    RequestError,
    CountSpent,
    WouldBlock,
}

impl Code {
    /// The code's number, 0 to 6.
    pub fn number(self) -> u32
        ensures value { result ≡ reply_number self }
        ensures range { result < 7 }
    {
        match self {
            Code::Ok => 0,
            Code::InvalidCap => 1,
            Code::UnknownRequest => 2,
            Code::NoAccess => 3,
            Code::RequestError => 4,
            Code::CountSpent => 5,
            Code::WouldBlock => 6,
        }
    }
}
