//! What reads a listing, so that its type tells what it keeps.
ghost use Rattle.std.specs.List.{All};
ghost use Rattle.listing_read.specs.Statement.{IsTyped, IsListing};

use listing_read::Listing;

/// What every listing keeps by its type. It reads the listing and does nothing else.
pub fn tell_listing(listing: &Listing)
    ensures kept { IsListing listing.now }
    ensures typed { All IsTyped listing.now.statements }
{
    let _sizes = listing.sizes();
    let _statements = listing.statements();
}
