//! What a kind of access asks for.

ghost use Rattle.std.specs.Prelude.{◌≡◌};
ghost use Rattle.walk_meaning.specs.Walk.{is_data};

use crate::kind::Kind;

impl Kind {
    /// Whether it is a fetch, a load or a store, which ends at a page.
    pub fn is_data(self) -> bool
        ensures { result ≡ is_data self }
    {
        match self {
            Kind::Fetch | Kind::Load | Kind::Store => true,
            Kind::CapLoad | Kind::CapStore => false,
        }
    }
}
