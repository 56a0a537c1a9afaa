//! Laws of the axis, as theorems: functions whose contracts are all that they are for.

ghost use Rattle.tick_axis.specs.Laws.{PlacesDoNotFall, PlacesAreOnTheAxis, EndsStandAtTheEnds, StepsAreLeast, MarksAreTheMultiples, LabelsAreShort, NumbersAreGrouped};

/// A later tick doesn't stand further left.
pub fn places_do_not_fall()
    ensures { PlacesDoNotFall }
{}

/// Each tick stands on the axis, from `left` to `left + width`.
pub fn places_are_on_the_axis()
    ensures { PlacesAreOnTheAxis }
{}

/// The first tick stands at `left`, and a later last one at `left + width`.
pub fn ends_stand_at_the_ends()
    ensures { EndsStandAtTheEnds }
{}

/// The step is 1, 2 or 5 times a power of ten and gives at most ten marks, and each smaller such number gives more.
pub fn steps_are_least()
    ensures { StepsAreLeast }
{}

/// There is a mark, and there are at most ten; they rise, and are exactly the multiples of the step from the first tick to the last.
pub fn marks_are_the_multiples()
    ensures { MarksAreTheMultiples }
{}

/// The tick from which marks count is a multiple of the step and not after the first tick, and each tick of the
/// axis is less than a thousand steps after it.
pub fn labels_are_short()
    ensures { LabelsAreShort }
{}

/// A number in groups is its decimal digits, in groups of three with a blank between; the first may have fewer.
pub fn numbers_are_grouped()
    ensures { NumbersAreGrouped }
{}
