//! What moments show of an order, as functions whose contracts are all that they are for.

ghost use Rattle.order_moments.specs.Laws.{MomentsExist, MomentsAreOne, MomentsRise, MomentsEndByFinishes, MomentsFollowStarts, MomentsBeforeStartsAreForced, TicksShowPrecedence, MomentsAreWithinTimes, OrdersExtendPrecedence};

/// Any operations have moments.
pub fn moments_exist()
    ensures { MomentsExist }
{}

/// And only one list of them.
pub fn moments_are_one()
    ensures { MomentsAreOne }
{}

/// Moments rise along the order.
pub fn moments_rise()
    ensures { MomentsRise }
{}

/// Each is at most its operation's latest finish.
pub fn moments_end_by_finishes()
    ensures { MomentsEndByFinishes }
{}

/// In an order that extends precedence at d each is at least its operation's earliest start, for a read its earliest
/// start less d.
pub fn moments_follow_starts()
    ensures { MomentsFollowStarts }
{}

/// A moment lies before its operation's earliest start only where a later operation of the order finished before that.
pub fn moments_before_starts_are_forced()
    ensures { MomentsBeforeStartsAreForced }
{}

/// Conversely, any ticks that rise along a list, each between its operation's earliest start (a read's less d) and latest
/// finish, show that the list extends precedence at d.
pub fn ticks_show_precedence()
    ensures { TicksShowPrecedence }
{}

/// The moments of an order that extends precedence at d are such ticks.
pub fn moments_are_within_times()
    ensures { MomentsAreWithinTimes }
{}

/// Operations that are put into an order of theirs at d extend precedence at d.
pub fn orders_extend_precedence()
    ensures { OrdersExtendPrecedence }
{}
