//! Laws of the words: the instruction table decodes them to the texts.
ghost use Rattle.board_echo.specs.Assembly.{AreDecoded};
ghost use Rattle.board_echo.specs.Frames.{FramesAreDecoded};
ghost use Rattle.board_echo.specs.Echo.{echo_lines, echo_words};

/// The words of the echo server are decoded to its listing, whatever follows each; the call does nothing.
pub fn echo_decodes()
    ensures { AreDecoded echo_words echo_lines }
{}

/// The words of firmware that gives the chip events are decoded to its text, unless they are more than 2,048; the call does
/// nothing.
pub fn frames_decode()
    ensures { FramesAreDecoded }
{}
