//! What a sender sends.
ghost use Rattle.std.specs.Prelude.{◌≡◌, ◌≤◌, ◌<◌, map};
ghost use Rattle.std.specs.List.{All};
ghost use Rattle.cap_format.specs.declared.kind.CapKind.TheVariants.{Process};
ghost use Rattle.object_store.specs.Store.{size_of};
ghost use Rattle.object_store.specs.Meaning.{meaning, state_map};
ghost use Rattle.object_store.specs.Ahead.{IsBehind, NoneAhead};
ghost use Rattle.invocation.specs.Delivery.{sent_by};

use crate::cap_list::CapList;
use crate::register_list::RegisterList;
use object_store::Objects;

/// The capabilities in these registers of a process, in their order and as they are stored.
pub fn sent_by(objects: &Objects, process: u16, registers: &RegisterList) -> CapList
    requires process { process < size_of objects.now.items Process }
    requires registers { All (λ register. register ≤ 31) registers.now }
    ensures value { result ≡ sent_by objects.now process registers.now }
    ensures means { map (meaning objects.now.items) result ≡
        sent_by (state_map objects.now) process registers.now }
    ensures behind { NoneAhead objects.now → All (IsBehind objects.now.items) result }
{
    let sender = objects.process(process);
    let list = registers.as_slice();
    let mut caps = CapList::new();
    for register in list {
        caps.push(sender.capreg(*register));
    }
    caps
}
