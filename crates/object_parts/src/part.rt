//! One object as it is kept.
ghost use Rattle.std.specs.Prelude.{◌≡◌};

use crate::compare::{same_cap_pages, same_endpoints, same_pages, same_processes};
use crate::count::Count;
use crate::feeding::{feed_cap_page, feed_front, feed_page};
use crate::slots::Slots;
use crate::table::Kept;
use endpoint_objects::Endpoint;
use page_store::{CapPage, Page};
use process_objects::Process;
use std::hash::{Hash, Hasher};

/// A copy of an object, its count included.
#[derive(Drop)]
pub enum Part {
    Page { count: Count, page: Box<Page> },
    CapPage { count: Count, page: Box<CapPage> },
    Gpt { count: Count, gpt: Slots },
    Process { count: Count, process: Box<Process> },
    Endpoint { count: Count, endpoint: Endpoint },
}

impl Part {
    ghost use Rattle.object_parts.specs.Live.{IsInRanges};
    ghost use Rattle.object_parts.specs.Objects.{object_in};

    /// Does nothing: its contract tells what every part keeps.
    pub(crate) fn tell_range(&self)
        ensures { IsInRanges (object_in self.now) }
    {
        match self {
            Part::Page { .. } => {}
            Part::CapPage { page, .. } => page.tell_range(),
            Part::Gpt { gpt, .. } => gpt.tell_range(),
            Part::Process { process, .. } => process.tell_range(),
            Part::Endpoint { endpoint, .. } => {
                // A capability that is read tells its ranges.
                let _kind = endpoint.recipient.kind();
            }
        }
    }
}

impl PartialEq for Part {
    ghost use Rattle.std.specs.Ordering.{on};
    ghost use Rattle.std.specs.Cmp.{decided, on_equiv, partial_equiv_from_equiv};
    ghost use Rattle.object_parts.specs.Same.{same_object};
    ghost use Rattle.object_parts.specs.SameLaws.{object_decides};
    ghost use Rattle.object_parts.specs.Objects.{object_in};

    ghost eq = { on object_in same_object };

    ghost laws = { partial_equiv_from_equiv (on_equiv object_in (decided same_object object_decides)) };

    fn eq(&self, other: &Part) -> bool {
        match self {
            Part::Page { count, page } => match other {
                Part::Page { count: c, page: p } => count.value == c.value && same_pages(page, p),
                _ => false,
            },
            Part::CapPage { count, page } => match other {
                Part::CapPage { count: c, page: p } => count.value == c.value
                    && same_cap_pages(page, p),
                _ => false,
            },
            Part::Gpt { count, gpt } => match other {
                Part::Gpt { count: c, gpt: g } => count.value == c.value && gpt.same(g),
                _ => false,
            },
            Part::Process { count, process } => match other {
                Part::Process {
                    count: c,
                    process: p,
                } => count.value == c.value && same_processes(process, p),
                _ => false,
            },
            Part::Endpoint { count, endpoint } => match other {
                Part::Endpoint {
                    count: c,
                    endpoint: e,
                } => count.value == c.value && same_endpoints(endpoint, e),
                _ => false,
            },
        }
    }
}

impl Eq for Part {
    ghost use Rattle.std.specs.Cmp.{decided, on_equiv};
    ghost use Rattle.object_parts.specs.Same.{same_object};
    ghost use Rattle.object_parts.specs.SameLaws.{object_decides};
    ghost use Rattle.object_parts.specs.Objects.{object_in};

    ghost laws = { on_equiv object_in (decided same_object object_decides) };
}

impl Hash for Part {
    ghost use Rattle.std.specs.Hash.{on_Alike, same_Alike};
    ghost use Rattle.object_parts.specs.SameLaws.{object_decides};
    ghost use Rattle.object_parts.specs.Objects.{object_in};
    ghost use Rattle.object_parts.specs.Part.{hashed};

    ghost hash_input = { λ p. hashed (object_in p) };

    ghost respects_eq = { (on_Alike object_in (same_Alike hashed object_decides)).fed };

    fn hash<H: Hasher>(&self, state: &mut H) {
        match self {
            Part::Page { count, page } => {
                feed_page(count.value, page, state);
            }
            Part::CapPage { count, page } => {
                state.write_u32(count.value);
                feed_cap_page(page, state);
            }
            Part::Gpt { count, gpt } => {
                state.write_u32(count.value);
                gpt.feed(state);
            }
            Part::Process { count: _, process } => {
                feed_front(process, state);
            }
            Part::Endpoint { count, endpoint } => {
                state.write_u32(count.value);
                state.write_u32(endpoint.payload);
            }
        }
    }
}

impl Kept for Part {
    ghost use Rattle.object_store.specs.Object.{ObjectValue};
    ghost use Rattle.object_parts.specs.SameLaws.{object_decides};
    ghost use Rattle.object_parts.specs.Objects.{object_in};

    ghost Content = { ObjectValue };

    ghost content = { object_in };

    ghost decides = { λ a b. object_decides (object_in a) (object_in b) };
}
