//! What is kept of looks, so that the next one costs less.
ghost use Rattle.std.specs.Prelude.{◌≡◌, None};

use decoded_words::Decoder;

/// A page of addresses by which accesses come to a page that they may reach in a quiet step.
#[derive(Clone, Copy)]
pub struct QuietPage {
    /// The addresses divided by 4,096.
    pub addresses: u32,
    /// The number of the page to which they lead.
    pub page: u16,
}

/// What is kept of looks at one process: of each kind of access the last page of addresses that led to a page that it may reach,
/// and the instructions of words, which hold for every process.
#[derive(Drop)]
pub struct KeptWalks {
    pub(crate) fetch: Option<QuietPage>,
    pub(crate) load: Option<QuietPage>,
    pub(crate) store: Option<QuietPage>,
    pub(crate) decoder: Decoder,
}

impl KeptWalks {
    /// No walk is kept.
    pub fn new() -> KeptWalks
        ensures fetch { result.fetch ≡ None }
        ensures load { result.load ≡ None }
        ensures store { result.store ≡ None }
    {
        KeptWalks {
            fetch: None,
            load: None,
            store: None,
            decoder: Decoder::new(),
        }
    }

    /// No walk is kept any more.
    pub fn forget(&mut self)
        ensures fetch { self.new.fetch ≡ None }
        ensures load { self.new.load ≡ None }
        ensures store { self.new.store ≡ None }
    {
        self.fetch = None;
        self.load = None;
        self.store = None;
    }
}
