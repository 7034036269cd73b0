//! Laws: the image of a listing is read as that listing, and no other bytes are.
//!
//! There is no code here but what reads values, so that their types tell their ranges.
ghost use Rattle.image_binary.specs.Laws.{ImagesAreRead, OnlyImagesAreRead, ImagesDiffer, IsPacked};

use listing_read::Listing;
use statement_text::tell_listing;

/// The image of a listing is read as that listing, where it has no more bytes than an input may have; bytes that are read
/// as a listing are its image; and no two listings have one image.
pub fn images_are_read()
    ensures read { ImagesAreRead }
    ensures only { OnlyImagesAreRead }
    ensures differ { ImagesDiffer }
{}

/// Every listing meets the premises of the laws. It reads the listing and does nothing else.
pub fn listing_is_packed(listing: &Listing)
    ensures { IsPacked listing.now }
{
    tell_listing(listing);
}
