//! Laws of the definitions, each the contract of an empty function.
ghost use Rattle.board_list.specs.Listing.{EndsBehindTheLastWord};

/// A listing ends after the last word of flash other than FFFF: the word before its end is another one, and each word from
/// there on is FFFF.
pub fn listing_ends_behind_the_last_word()
    ensures { EndsBehindTheLastWord }
{}
