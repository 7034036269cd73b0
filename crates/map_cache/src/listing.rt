//! Listing the entries.

ghost use Rattle.std.specs.Prelude.{◌≡◌, ◌≤◌, ◌<◌, ◌+◌, ◌^◌, [], ◌∷◌, length, IfSome, IsNone};
ghost use Rattle.map_cache.specs.Effects.{IsKept, value_of};
ghost use Rattle.map_cache.specs.Mappings.{mappings_left, place_at};

use crate::mapping::{Mapping, MappingPlace, next_leaf, page_entry};
use crate::mappings::Mappings;

impl Mappings {
    /// The next entry from a place on, with the place behind it.
    pub fn next_mapping(&self, place: MappingPlace) -> Option<(Mapping, MappingPlace)>
        requires kept { IsKept self.now }
        requires inside { place.page ≤ 2 ^ 20 }
        ensures some { IfSome result
            (λ next. mappings_left (value_of self.now) place ≡ next.0 ∷ mappings_left (value_of self.now) next.1) }
        ensures behind { IfSome result (λ next. next.1.page ≤ 2 ^ 20) }
        ensures none { IsNone result → mappings_left (value_of self.now) place ≡ [] }
    {
        let mut page = place.page;
        'frames: for frame in place.frame..self.keys.len() as u16 {
            if let Some(next) = self.next_under(frame, page) {
                return Some(next);
            }
            page = 0;
        }
        None
    }

    /// The next entry under a frame from a page on, with the place behind it.
    fn next_under(&self, frame: u16, page: u32) -> Option<(Mapping, MappingPlace)>
        requires kept { IsKept self.now }
        requires frame { frame < length self.now.keys.items }
        requires inside { page ≤ 2 ^ 20 }
        ensures some { IfSome result
            (λ next. mappings_left (value_of self.now) (place_at frame page) ≡ next.0 ∷ mappings_left (value_of self.now) next.1) }
        ensures behind { IfSome result (λ next. next.1.page ≤ 2 ^ 20) }
        ensures none { IsNone result → mappings_left (value_of self.now) (place_at frame page)
            ≡ mappings_left (value_of self.now) (place_at (frame + 1) 0) }
    {
        let key = self.keys[frame as usize];
        if key.region.is_some() {
            return None;
        }
        let found = next_leaf(&self.tables, frame, page)?;
        let behind = MappingPlace {
            frame,
            page: found.0 + 1,
        };
        Some((page_entry(key.space, found.0, found.1), behind))
    }
}
