//! Laws of scripts, as the contracts of functions that do nothing.

ghost use Rattle.eden_script.specs.Laws.{EscapesAreUndone, EscapedIsOneWord, LinesAreReadBack, LinesHaveNoLineFeed, NumbersAreReadBack, NumbersHaveOneText, DecimalsAreNotEscaped};

/// States that what `push_escaped` wrote is read as the same bytes.
pub fn escape_law()
    ensures { EscapesAreUndone }
{}

/// States that what `push_escaped` wrote is one word of a line.
///
/// It has no space and no line feed, and is not empty.
pub fn word_law()
    ensures { EscapedIsOneWord }
{}

/// States that a line of escaped words is read back.
///
/// There is one word or more, with a space between each two.
pub fn line_law()
    ensures { LinesAreReadBack }
{}

/// States that a line of escaped words has no line feed.
pub fn line_feed_law()
    ensures { LinesHaveNoLineFeed }
{}

/// States that what `push_number` wrote is read as the same number.
pub fn number_law()
    ensures { NumbersAreReadBack }
{}

/// States that a number is read from its decimal text alone.
pub fn number_text_law()
    ensures { NumbersHaveOneText }
{}

/// States that the decimal text of a number needs no escapes.
pub fn decimal_law()
    ensures { DecimalsAreNotEscaped }
{}
