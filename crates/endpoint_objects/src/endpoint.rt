//! An endpoint.
ghost use Rattle.std.specs.Prelude.{◌≡◌};

use cap_format::Cap;

/// Where the entries that name it lead.
#[derive(Clone, Copy)]
pub struct Endpoint {
    /// A capability to the process that answers, or Null.
    pub recipient: Cap,
    /// What a closed wait names it by.
    pub id: u32,
    /// What an entry's payload has to be where `matching` is set.
    pub payload: u32,
    /// Whether each message needs the payload of its turn.
    pub matching: bool,
}

impl Endpoint {
    ghost use Rattle.endpoint_objects.specs.Endpoint.{raised, empty_endpoint};

    pub fn new() -> Endpoint
        ensures { result ≡ empty_endpoint }
    {
        Endpoint {
            recipient: Cap::null(),
            id: 0,
            payload: 0,
            matching: false,
        }
    }

    /// Goes on to the next payload, from the last one to 0.
    pub fn raise(&mut self)
        ensures { self.new ≡ raised self.old }
    {
        self.payload = self.payload.wrapping_add(1);
    }

    /// Becomes a copy of another endpoint.
    pub fn copy_from(&mut self, from: &Endpoint)
        ensures copy { self.new ≡ from.now }
    {
        *self = *from;
    }
}
