//! The entries of the tables, one by one.

ghost use Rattle.std.specs.Prelude.{◌≡◌, ◌≤◌, ◌<◌, ◌+◌, ◌*◌, ◌^◌, ℕ, IfSome, IsNone, None, Some};
ghost use Rattle.sv32_tables.specs.Pool.{IsRoot, leaf_at};
ghost use Rattle.map_cache.specs.Mappings.{HasNext, mapping_of, start};

use cap_format::Cap;
use sv32_tables::{Leaf, TablePool};

/// One entry of the tables: where a page of a space lies, and what may be done there. It may be read.
#[derive(Clone, Copy)]
pub struct Mapping {
    /// A capability with its count.
    pub space: Cap,
    /// The first address of the page.
    pub va: u32,
    /// The number of the physical page.
    pub page: u16,
    /// Whether a store may go there.
    pub write: bool,
    /// Whether an instruction may be fetched there.
    pub execute: bool,
}

/// Where a listing of the entries goes on.
#[derive(Clone, Copy)]
pub struct MappingPlace {
    /// The number of a frame.
    pub frame: u16,
    /// The number of a page, where the frame is a root.
    pub page: u32,
}

impl MappingPlace {
    /// The place before the first entry.
    pub fn start() -> MappingPlace
        ensures { result ≡ start }
    {
        MappingPlace { frame: 0, page: 0 }
    }
}

/// The entry of a page.
pub fn page_entry(space: Cap, page: u32, leaf: Leaf) -> Mapping
    requires { page < 2 ^ 20 }
    ensures { result ≡ mapping_of space page leaf }
{
    Mapping {
        space,
        va: page * 4096,
        page: leaf.page,
        write: leaf.write,
        execute: leaf.execute,
    }
}

/// The next page of a root that has a leaf, from a page on. It reads one word for each region, and the
/// words of those that have a frame.
pub fn next_leaf(tables: &TablePool, root: u16, first: u32) -> Option<(u32, Leaf)>
    requires made { IsRoot tables.now root }
    requires frame { root < 256 }
    requires inside { first ≤ 2 ^ 20 }
    ensures some { IfSome result (λ found. HasNext tables.now root first (2 ^ 20) found.0 found.1) }
    ensures none { IsNone result → (page : ℕ) → first ≤ page → page < 2 ^ 20
        → leaf_at tables.now root page ≡ None }
{
    'regions: for region in first / 1024..1024 {
        let from = first.max(region * 1024);
        if let Some(found) = next_in_region(tables, root, region, from) {
            return Some(found);
        }
    }
    None
}

/// The next page of a region that has a leaf, from a page of it on.
fn next_in_region(tables: &TablePool, root: u16, region: u32, first: u32) -> Option<(u32, Leaf)>
    requires made { IsRoot tables.now root }
    requires frame { root < 256 }
    requires region { region < 1024 }
    requires inside { region * 1024 ≤ first }
    ensures some { IfSome result
        (λ found. HasNext tables.now root first ((region + 1) * 1024) found.0 found.1) }
    ensures none { IsNone result → (page : ℕ) → first ≤ page → page < (region + 1) * 1024
        → leaf_at tables.now root page ≡ None }
{
    if tables.word(root, region as u16) == 0 {
        return None;
    }
    next_page(tables, root, first, (region + 1) * 1024)
}

/// The next page that has a leaf, from one page up to another.
fn next_page(tables: &TablePool, root: u16, first: u32, end: u32) -> Option<(u32, Leaf)>
    requires made { IsRoot tables.now root }
    requires inside { end ≤ 2 ^ 20 }
    ensures some { IfSome result (λ found. HasNext tables.now root first end found.0 found.1) }
    ensures none { IsNone result → (page : ℕ) → first ≤ page → page < end
        → leaf_at tables.now root page ≡ None }
{
    'pages: for page in first..end {
        if let Ok(leaf) = tables.hw_walk(root, page * 4096) {
            return Some((page, leaf));
        }
    }
    None
}
