//! Laws of the machine that a listing boots: it starts in its ranges, and what is printed of it makes it again.
//!
//! There is no code here but what reads the values of a listing. Each function has a law as its contract.
#![tactic(auto)]

ghost use Rattle.std.specs.Prelude.{◌≡◌};
ghost use Rattle.run_ranges.specs.Ranges.{AreInRanges};
ghost use Rattle.image_builder.specs.Boot.{booted};
ghost use Rattle.read_back.specs.Listable.{IsListable};
ghost use Rattle.boot_again.specs.Boots.{PrintedObjectsBoot, printed_listing};
ghost use Rattle.boot_again.specs.Again.{AllAccepted, BootedIsListable, BootedAgain};
ghost use Rattle.boot_again.specs.Text.{PrintedIsListing};
ghost use Rattle.boot_again.specs.Ranges.{BootedIsInRanges};

use listing_read::Listing;
use statement_text::tell_listing;

/// The statements that are printed of the objects of a state make these objects again, in a machine that is booted with
/// them: each thing and each count is as it was, and those processes are made ready that ran.
pub fn printed_objects_boot()
    ensures { PrintedObjectsBoot }
{}

/// Where the values of a listing are in the ranges of their types, and none of its processes is refused for want of a
/// schedule, a listing can say the objects of the machine that is booted from it. A process that was refused is at a
/// fault, which no statement says.
pub fn booted_is_listable()
    ensures { BootedIsListable }
{}

/// The listing of what is printed of these objects makes that machine again: its objects with their counts and the
/// states of its processes, its queues in their order, its harts, and that it is not halted.
pub fn booted_again()
    ensures { BootedAgain }
{}

/// The same two laws of a listing that was read: nothing is asked of its values, since their types keep the ranges.
/// Where none of its processes is refused for want of a schedule, what the booted machine prints makes it again.
pub fn listing_boots_again(listing: &Listing)
    ensures listable { AllAccepted listing.now → IsListable (booted listing.now).store }
    ensures again { AllAccepted listing.now →
        booted (printed_listing (booted listing.now).store) ≡ booted listing.now }
{
    tell_listing(listing);
    booted_is_listable();
    booted_again();
}

/// What is printed of objects, between the two lines that open a listing and the line `end`, is read as the listing of
/// these objects, to its last line. The text has at most as many bytes as an input may have.
pub fn printed_is_listing()
    ensures { PrintedIsListing }
{}

/// Where the values of a listing are in the ranges of their types, the machine that is booted from it holds nothing that
/// isn't in its range.
pub fn booted_is_in_ranges()
    ensures { BootedIsInRanges }
{}

/// The same law of a listing that was read: nothing is asked of its values, since their types keep the ranges.
pub fn listing_boots_in_ranges(listing: &Listing)
    ensures { AreInRanges (booted listing.now).store }
{
    tell_listing(listing);
    booted_is_in_ranges();
}
