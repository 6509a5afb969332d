//! Every command but a live run.
ghost use Rattle.std.specs.Prelude.{◌≡◌, ◌↔◌, ℕ, ◌⊎◌, Some, None, map, string_bytes, true, IsSome, IfSome};
ghost use Rattle.wz_base.specs.Outside.{Rose, RisesOnly};
ghost use Rattle.board_quick.specs.Ends.{status_of};
ghost use Rattle.board_quick.specs.Reads.{counts};
ghost use Rattle.board_quick.specs.Words.{asked, asks_live, command_of};
ghost use Rattle.board_quick.specs.Outcome.{asks_run, IsLegal, IsUntouched, Reports, ReportsBoard, ReportsQuick, ReportsText};
ghost use Rattle.board_quick.specs.Runs.{IsOfRun, IsTied};

use crate::boards::on_board;
use crate::end::{EndKind, QuickEnd, Refusal};
use crate::left::{not_loaded, refuse_words};
use crate::loading::{load_both, unread};
use crate::reading::read_operand;
use crate::runs::run_echo;
use crate::texts::{help, on_text};
use crate::words::{BoardCommand, Command, TextCommand, command_of};
use std::alloc::Global;
use wz_base::{Files, Sink};

/// Reads a file, and does what is asked of its text.
fn run_text<F: Files, K: Sink>(
    alloc: Global,
    what: TextCommand,
    name: &str,
    files: &mut F,
    out: &mut K,
) -> QuickEnd
    ensures { ReportsText (F.held files.old) (counts (F.misses files.old) (F.faults files.old)) (counts (F.misses files.new) (F.faults files.new)) what name.now result (K.written out.old) (K.written out.new) (K.faults out.old) (K.faults out.new) }
{
    match read_operand(alloc, files, name) {
        Ok(text) => on_text(alloc, what, &text, out),
        Err(error) => not_loaded(alloc, unread(1, error), out),
    }
}

/// Reads the files of an image and of a board, and does what is asked of their texts.
fn run_board<F: Files, K: Sink>(
    alloc: Global,
    what: BoardCommand,
    image: &str,
    board: &str,
    files: &mut F,
    out: &mut K,
) -> QuickEnd
    ensures { ReportsBoard (F.held files.old) (counts (F.misses files.old) (F.faults files.old)) (counts (F.misses files.new) (F.faults files.new)) what image.now board.now result (K.written out.old) (K.written out.new) (K.faults out.old) (K.faults out.new) }
{
    match load_both(alloc, files, image, board) {
        Ok((image, board)) => on_board(alloc, what, image, board, out),
        Err(error) => not_loaded(alloc, error, out),
    }
}

/// Does what a command asks that is no live run.
fn run_command<F: Files, K: Sink>(
    alloc: Global,
    command: &Command<'_>,
    files: &mut F,
    out: &mut K,
) -> Option<QuickEnd>
    ensures { ReportsQuick (F.held files.old) (counts (F.misses files.old) (F.faults files.old)) (counts (F.misses files.new) (F.faults files.new)) (Some (asked command.now)) result (K.written out.old) (K.written out.new) (K.faults out.old) (K.faults out.new) }
{
    match *command {
        Command::Run { .. } => None,
        Command::OnText { what, name } => Some(run_text(alloc, what, name, files, out)),
        Command::OnBoard { what, image, board } => {
            Some(run_board(alloc, what, image, board, files, out))
        }
        Command::Gen { number } => Some(run_echo(alloc, number, out)),
        Command::Help => Some(help(alloc, out)),
    }
}

/// Does what the words ask that are no live run.
fn run_words<F: Files, K: Sink>(
    alloc: Global,
    words: &[String],
    files: &mut F,
    out: &mut K,
) -> Option<QuickEnd>
    ensures reports { ReportsQuick (F.held files.old) (counts (F.misses files.old) (F.faults files.old)) (counts (F.misses files.new) (F.faults files.new)) (command_of (map string_bytes words.now)) result (K.written out.old) (K.written out.new) (K.faults out.old) (K.faults out.new) }
    ensures no_form { IfSome result (λ r. command_of (map string_bytes words.now) ≡ None → (r.end ≡ EndKind.Refused Refusal.Usage) ⊎ (r.end ≡ EndKind.WriteFault)) }
{
    match command_of(words) {
        None => Some(refuse_words(alloc, out)),
        Some(command) => run_command(alloc, &command, files, out),
    }
}

/// Does what the words ask, those after the program's name, where they are no live run: it waits for nobody and returns. It
/// answers `None` exactly where they are one, and then it has asked nothing of files and sink.
///
/// # Ends
///
/// `Usage` exactly where the words are no written form. `NoFile`, `ReadFault` and `TooLong` of an operand, each by its cause; the
/// second operand is read only where the first was. `Hex`, `Board` and `Script` exactly by the first fault of the text, that of
/// an image before that of a board; a script's text is found faulty before anything runs, but for a link event that does not fit,
/// and a trace's before anything is judged. `Judged` exactly at the first event of a trace that the datasheet does not allow.
/// `Chip` of a script exactly where an event of it has that stop. `Break`, `Sleep`, `CycleLimit`, `Avr`, `Chip` and `TraceFull`
/// of a run exactly as the schedule of the image on the board ends, which is one function of both. `WriteFault` exactly where the
/// sink's count of faults rose; then what was written is a prefix of the text, and the history a prefix of the whole history:
/// where a serial byte of a run failed, that up to the step that printed it. `NoMemory` may come at any time, behind a prefix of
/// the text. `PollFault` never comes.
pub fn quick<F: Files, K: Sink>(
    alloc: Global,
    words: &[String],
    files: &mut F,
    out: &mut K,
) -> Option<QuickEnd>
    ensures live { result ≡ None ↔ asks_live (command_of (map string_bytes words.now)) ≡ true }
    ensures untouched { result ≡ None → IsUntouched (counts (F.misses files.old) (F.faults files.old)) (counts (F.misses files.new) (F.faults files.new)) (K.written out.old) (K.written out.new) (K.faults out.old) (K.faults out.new) }
    ensures reports { IfSome result (λ r. Reports (F.held files.old) (counts (F.misses files.old) (F.faults files.old)) (counts (F.misses files.new) (F.faults files.new)) (command_of (map string_bytes words.now)) r (K.written out.old) (K.written out.new) (K.faults out.old) (K.faults out.new)) }
    ensures legal { IfSome result (λ r. IsLegal r.history.past) }
    ensures status { IfSome result (λ r. r.status ≡ status_of r.end) }

    // Scripted peers stand where a run was asked for and made them, and they agree with the history; only such a run has a run's
    // ends, and no poll is made.
    ensures scripted { IfSome result (λ r. IfSome r.script (λ links. asks_run (command_of (map string_bytes words.now)) ≡ true)) }
    ensures tied { IfSome result (λ r. IfSome r.script (λ links. IsTied r.history.past links)) }
    ensures made { IfSome result (λ r. IsOfRun r.end → IsSome r.script) }
    ensures no_poll_fault { IfSome result (λ r. r.end ≡ EndKind.PollFault → ⊥) }

    // Each answer that is not of the texts has its cause.
    ensures usage { IfSome result (λ r. r.end ≡ EndKind.Refused Refusal.Usage → command_of (map string_bytes words.now) ≡ None) }
    ensures no_form { IfSome result (λ r. command_of (map string_bytes words.now) ≡ None → (r.end ≡ EndKind.Refused Refusal.Usage) ⊎ (r.end ≡ EndKind.WriteFault)) }
    ensures misses { IfSome result (λ r. (operand : ℕ) → r.end ≡ EndKind.Refused (Refusal.NoFile operand) → Rose (F.misses files.old) (F.misses files.new)) }
    ensures read_faults { IfSome result (λ r. (operand : ℕ) → r.end ≡ EndKind.Refused (Refusal.ReadFault operand) → Rose (F.faults files.old) (F.faults files.new)) }
    ensures write_faults { IfSome result (λ r. RisesOnly (r.end ≡ EndKind.WriteFault) (K.faults out.old) (K.faults out.new)) }
{
    run_words(alloc, words, files, out)
}
