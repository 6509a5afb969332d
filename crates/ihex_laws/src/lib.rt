//! Intel HEX both ways: the text that `store` writes of an image, `load` reads as the same image.
#![tactic(auto)]

ghost use Rattle.ihex_laws.specs.RoundTrip.{TextGivesImage};

/// The text of an image has no fault, and what is read of it is the image again; the call does nothing.
pub fn text_gives_the_image()
    ensures { TextGivesImage }
{}
