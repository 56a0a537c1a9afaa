//! What there is for any clusters, as functions whose contracts are all that they are for.

ghost use Rattle.zones.specs.Laws.{ZoneOrdersExist, PairsExist};

/// There is a zone order of any clusters at each d.
pub fn zone_orders_exist()
    ensures { ZoneOrdersExist }
{}

/// There is a pair of clusters whose write records differ, unless no two are in conflict.
pub fn pairs_exist()
    ensures { PairsExist }
{}
