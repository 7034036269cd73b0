//! Laws of the store. Each is a function that does nothing, whose contract is the law.
ghost use Rattle.object_store.specs.Laws.{ReadsMean, WritesMean, DestructionMeans, DifferenceLaws, NoneComesAhead};

/// What is read of the map is the meaning of what is read of the objects.
pub fn reads_mean()
    ensures { ReadsMean }
{}

/// A write to the objects means the same write to the map.
pub fn writes_mean()
    ensures { WritesMean }
{}

/// What `Objects::destroy` leaves means the map without the object and without any capability to it.
pub fn destruction_means()
    ensures { DestructionMeans }
{}

/// One-item difference is made by each write of an item, and has no direction.
pub fn difference_laws()
    ensures { DifferenceLaws }
{}

/// No call but `Objects::set_count` puts a capability ahead of its object.
pub fn none_comes_ahead()
    ensures { NoneComesAhead }
{}
