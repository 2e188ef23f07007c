// Laws of chronicles as texts.
ghost use Rattle.ghc_records.specs.ChronicleLaws.{CutChroniclesAreRefused, TextsTellOneChronicle, WrittenChroniclesAreReadAgain};

use ghc_reader::{
    printed_goals_are_read_again, printed_terms_are_read_again, read_body_is_exact,
    read_ground_term_is_exact,
};

/// A text tells one chronicle at most, and none where a line of it is wrong.
pub fn texts_tell_one_chronicle()
    ensures { TextsTellOneChronicle }
{
    // Both are called for their clause that a text is read in one way, which the proof cites.
    read_ground_term_is_exact();
    read_body_is_exact();
}

/// What is written of a chronicle that a text can tell is read again as itself; and what is read is such a chronicle, and, written,
/// read again as itself.
pub fn written_chronicles_are_read_again()
    ensures { WrittenChroniclesAreReadAgain }
{
    // Both are called for their clauses on input terms and goals as they are written, which the proof cites.
    printed_terms_are_read_again();
    printed_goals_are_read_again();
}

/// A text of a chronicle that is cut off anywhere is refused, with the line after the last line feed that is left.
pub fn cut_chronicles_are_refused()
    ensures { CutChroniclesAreRefused }
{}
