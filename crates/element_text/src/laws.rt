//! Laws of the text of elements, and elements worked by hand.
ghost use Rattle.element_text.specs.Laws.{TextReadsBack, JoinedAreSame, TextIsOfOne, TextsFollow, TextIsPlain};

/// The text of elements reads back, where each has a name and attributes with different names: every tag has its other,
/// and what stands between tags and in attributes is escaped.
pub fn what_is_written_reads_back()
    ensures { TextReadsBack }
{}

/// What reads back, with neighbouring words as one, has the same text, and is the same where no words are empty or
/// stand next to others.
pub fn joined_elements_are_same()
    ensures { JoinedAreSame }
{}

/// Elements with names that have the same text are the same.
pub fn text_is_of_one()
    ensures { TextIsOfOne }
{}

/// The text of elements that follow others stands behind theirs.
pub fn texts_follow()
    ensures { TextsFollow }
{}

/// Where names, values and words are visible ASCII characters, blanks and line feeds, the text is.
pub fn text_is_plain()
    ensures { TextIsPlain }
{}
