//! The words of the command line.
ghost use Rattle.std.specs.Prelude.{◌≡◌, map, string_bytes, option_map};
ghost use Rattle.board_quick.specs.Words.{asked, board_command, command_of, is_operand, number, on_board, on_text, text_command, two_words};

/// What is asked of one text.
#[derive(Clone, Copy, Debug, PartialEq, Eq)]
pub enum TextCommand {
    /// `bus SCRIPT`: runs a bus script.
    Bus,
    /// `judge TRACE`: judges the history of a trace.
    Judge,
    /// `list HEX`: lists the instructions of an Intel HEX text.
    List,
}

/// What is asked of the text of a firmware image and that of a board.
#[derive(Clone, Copy, Debug, PartialEq, Eq)]
pub enum BoardCommand {
    /// `sim HEX BOARD`: runs the image on the board with its scripted peers, and prints what it prints and a report.
    Sim,
    /// `trace HEX BOARD`: runs as `sim` does, and prints the trace of the run.
    Trace,
    /// `check HEX BOARD`: judges both, and counts what they say.
    Check,
}

/// A written form of the command line.
#[derive(Clone, Copy, Debug, PartialEq, Eq)]
pub enum Command<'a> {
    /// A command on one file.
    OnText {
        /// What is asked.
        what: TextCommand,
        /// The name of the file.
        name: &'a str,
    },
    /// `run HEX BOARD`: runs a firmware image on a board over links, live.
    Run {
        /// The name of the image's file.
        image: &'a str,
        /// The name of the board's file.
        board: &'a str,
    },
    /// A command on a firmware image and a board that is none of a live run.
    OnBoard {
        /// What is asked.
        what: BoardCommand,
        /// The name of the image's file.
        image: &'a str,
        /// The name of the board's file.
        board: &'a str,
    },
    /// `gen N`: runs the echo server with the peer of a number.
    Gen {
        /// The peer's number.
        number: u64,
    },
    /// `--help`: prints the written forms.
    Help,
}

/// The command on one file of this name, if it is one.
fn text_command(word: &str) -> Option<TextCommand>
    ensures { result ≡ text_command word.now }
{
    match word {
        "bus" => Some(TextCommand::Bus),
        "judge" => Some(TextCommand::Judge),
        "list" => Some(TextCommand::List),
        _ => None,
    }
}

/// The command on an image and a board of this name, if it is one.
fn board_command(word: &str) -> Option<BoardCommand>
    ensures { result ≡ board_command word.now }
{
    match word {
        "sim" => Some(BoardCommand::Sim),
        "trace" => Some(BoardCommand::Trace),
        "check" => Some(BoardCommand::Check),
        _ => None,
    }
}

/// Whether a word may be an operand: it is not empty and does not start with a dash.
fn is_operand(word: &str) -> bool
    ensures { result ≡ is_operand word.now }
{
    !word.is_empty() && !word.starts_with('-')
}

/// The command on one file that two words are, if they are one.
fn on_text<'a>(word: &str, name: &'a str) -> Option<Command<'a>>
    ensures { option_map asked result ≡ on_text word.now name.now }
{
    if !is_operand(name) {
        return None;
    }
    match text_command(word) {
        Some(what) => Some(Command::OnText { what, name }),
        None => None,
    }
}

/// The number that a word writes: one to twenty digits of at most 18446744073709551615.
fn number(word: &str) -> Option<u64>
    ensures { result ≡ number word.now }
{
    let digits = word.as_bytes();
    if digits.is_empty() || digits.len() > 20 {
        return None;
    }
    let mut value: u128 = 0;
    for digit in digits {
        if *digit < b'0' || *digit > b'9' {
            return None;
        }
        value = value * 10 + u128::from(*digit - b'0');
    }
    if value > 18_446_744_073_709_551_615 {
        return None;
    }
    Some(value as u64)
}

/// The command that two words are, if they are one.
fn two_words<'a>(word: &str, operand: &'a str) -> Option<Command<'a>>
    ensures { option_map asked result ≡ two_words word.now operand.now }
{
    match word {
        "gen" => match number(operand) {
            Some(number) => Some(Command::Gen { number }),
            None => None,
        },
        _ => on_text(word, operand),
    }
}

/// The command on an image and a board that three words are, if they are one.
fn on_board<'a>(word: &str, image: &'a str, board: &'a str) -> Option<Command<'a>>
    ensures { option_map asked result ≡ on_board word.now image.now board.now }
{
    if !(is_operand(image) && is_operand(board)) {
        return None;
    }
    match word {
        "run" => Some(Command::Run { image, board }),
        _ => match board_command(word) {
            Some(what) => Some(Command::OnBoard { what, image, board }),
            None => None,
        },
    }
}

/// The command that the words are, if they are one.
pub fn command_of(words: &[String]) -> Option<Command<'_>>
    ensures { option_map asked result ≡ command_of (map string_bytes words.now) }
{
    match words {
        [word] if word.as_str() == "--help" => Some(Command::Help),
        [word, operand] => two_words(word.as_str(), operand.as_str()),
        [word, image, board] => on_board(word.as_str(), image.as_str(), board.as_str()),
        _ => None,
    }
}
