// Laws of histories as texts.
ghost use Rattle.ghc_records.specs.HistoryLaws.{CutTextsAreRefused, ReadHistoryIsExact, WrittenHistoriesAreReadAgain};

use ghc_reader::{printed_terms_are_read_again, read_ground_term_is_exact};

/// What is written of a history is read again; and what is read is of the form, and, written, read again as itself.
pub fn written_histories_are_read_again()
    ensures { WrittenHistoriesAreReadAgain }
{
    // Called for its clauses on input terms as they are written, which the proof cites.
    printed_terms_are_read_again();
}

/// What is answered for the text of a history is exact, unless memory was refused: a text tells one history or has one first
/// wrong line, and never both.
pub fn read_history_is_exact()
    ensures { ReadHistoryIsExact }
{
    // Called for its clause that a text says one input term, which the proof cites.
    read_ground_term_is_exact();
}

/// A text of a history that is cut off anywhere is refused, with the line after the last line feed that is left.
pub fn cut_texts_are_refused()
    ensures { CutTextsAreRefused }
{}
