//! The marks, and how they go backwards along edges.

ghost use Rattle.std.specs.Prelude.{◌≡◌, ℕ, ◌<◌, ◌≤◌, true, false, length, count_by, not, slice_index_or, ◌↔◌};
ghost use Rattle.reaches_back.specs.Edges.{end_of, AreEdges, CanReach, NoneMarked};

/// Whether an edge of a node leads to a marked one.
fn leads_to_marked(width: usize, ends: &[u32], marks: &[bool], at: usize) -> bool
    requires edges { AreEdges width ends.now (length marks.now) }
    requires at { at < length marks.now }
    ensures some { result ≡ true → CanReach width ends.now marks.now at }
    ensures none { result ≡ false → NoneMarked width ends.now marks.now at }
{
    for edge in 0..width {
        if marks[ends[at * width + edge] as usize] {
            return true;
        }
    }
    false
}

/// Marks nodes that have an edge to a marked one, from the last node to the first, and tells whether there were any.
fn sweep(width: usize, ends: &[u32], marks: &mut [bool]) -> bool
    requires edges { AreEdges width ends.now (length marks.old) }
    ensures sound { (at : ℕ) → slice_index_or marks.new at false ≡ true → CanReach width ends.now marks.old at }
    ensures kept { (at : ℕ) → slice_index_or marks.old at false ≡ true → slice_index_or marks.new at false ≡ true }
    ensures least { count_by not marks.new ≤ count_by not marks.old }
    ensures fewer { result ≡ true → count_by not marks.new < count_by not marks.old }
    ensures done { result ≡ false → (at : ℕ) → at < length marks.old
        → slice_index_or marks.new at false ≡ false → NoneMarked width ends.now marks.new at }
{
    let mut changed = false;
    let mut at = marks.len();
    while at > 0 {
        at -= 1;
        if !marks[at] && leads_to_marked(width, ends, marks, at) {
            marks[at] = true;
            changed = true;
        }
    }
    changed
}

/// Marks each node from which some edges lead to a marked one. Each node has `width` edges, and `ends` lists where they
/// lead, those of the first node first.
pub fn reach_back(width: usize, ends: &[u32], marks: &mut [bool])
    requires { AreEdges width ends.now (length marks.old) }
    ensures marks { (at : ℕ) → at < length marks.old
        → (slice_index_or marks.new at false ≡ true) ↔ CanReach width ends.now marks.old at }
{
    let mut changed = true;
    while changed {
        changed = sweep(width, ends, marks);
    }
}
