//! Elements worked by hand, and texts that are none.

ghost use Rattle.std.specs.Prelude.{◌≡◌, Some, None, codes};
ghost use Rattle.element_text.specs.Elements.{escaped, followed_by, elements_text, Words, End};
ghost use Rattle.element_text.specs.Reading.{elements_read};
ghost use Rattle.element_text.specs.Examples.{label, drawing};

/// A path with nothing in it and a label, in a drawing: an ampersand in words, and the other marks in a value.
pub fn drawing_of_a_label()
    ensures text { elements_text drawing
        ≡ codes "<svg width=\"300\" aria-label=\"&lt;&apos;&quot;&apos;&gt;\"><path></path><text x=\"16\">R&amp;D</text></svg>" }
    ensures reads_back { elements_read (elements_text drawing) ≡ Some drawing }
{}

/// What looks like an entity in words: its ampersand is escaped, and so it reads back as it was.
pub fn entity_in_words()
    ensures text { escaped (codes "&lt;") ≡ codes "&amp;lt;" }
    ensures read { elements_read (codes "&amp;lt;") ≡ Some (Words (codes "&lt;") End) }
{}

/// Two labels after one another, and words after words, which read as one.
pub fn elements_after_others()
    ensures labels { elements_text (followed_by label label)
        ≡ codes "<text x=\"16\">R&amp;D</text><text x=\"16\">R&amp;D</text>" }
    ensures words { elements_read
        (elements_text (followed_by (Words (codes "1 ") End) (Words (codes "tick") End)))
        ≡ Some (Words (codes "1 tick") End) }
{}

/// Tags without their other, in a wrong order, or cut off.
pub fn tags_without_their_other()
    ensures crossed { elements_read (codes "<a><b></a></b>") ≡ None }
    ensures not_ended { elements_read (codes "<a>") ≡ None }
    ensures not_begun { elements_read (codes "</a>") ≡ None }
    ensures other_name { elements_read (codes "<a></ab>") ≡ None }
    ensures longer_name { elements_read (codes "<ab></a>") ≡ None }
    ensures begun_twice { elements_read (codes "<a><a>") ≡ None }
    ensures cut_off { elements_read (codes "<a></a") ≡ None }
    ensures no_name { elements_read (codes "<></>") ≡ None }
    ensures digit_first { elements_read (codes "<1></1>") ≡ None }
{}

/// Marks that stand in words and values as they are, and an entity that is none of the five.
pub fn marks_not_escaped()
    ensures ampersand { elements_read (codes "<a>R&D</a>") ≡ None }
    ensures less { elements_read (codes "<a>1<2</a>") ≡ None }
    ensures greater { elements_read (codes "<a>2>1</a>") ≡ None }
    ensures quote { elements_read (codes "<a>\"</a>") ≡ None }
    ensures apostrophe { elements_read (codes "<a>'</a>") ≡ None }
    ensures other_entity { elements_read (codes "<a>&nbsp;</a>") ≡ None }
    ensures less_in_value { elements_read (codes "<a b=\"<\"></a>") ≡ None }
    ensures quote_in_value { elements_read (codes "<a b=\"\"\"></a>") ≡ None }
{}

/// Attributes that stand together, without quotes, without a name, twice, or with an end tag.
pub fn attributes_that_are_none()
    ensures no_blank { elements_read (codes "<a b=\"1\"c=\"2\"></a>") ≡ None }
    ensures no_quotes { elements_read (codes "<a b=1></a>") ≡ None }
    ensures no_attribute_name { elements_read (codes "<a =\"1\"></a>") ≡ None }
    ensures twice { elements_read (codes "<a b=\"1\" b=\"2\"></a>") ≡ None }
    ensures in_end_tag { elements_read (codes "<a></a b=\"1\">") ≡ None }
{}
