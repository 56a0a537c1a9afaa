//! What there is for any operations and clusters, as functions whose contracts are all that they are for.

ghost use Rattle.delta_score.specs.ExistenceLaws.{OperationOrdersExist, LeastDeltasExist};

/// There is an order of any operations by any list of writes, as [`op_order`](crate::op_order) gives it.
pub fn operation_orders_exist()
    ensures { OperationOrdersExist }
{}

/// There is a least d at which no two clusters are in conflict, where write records differ and in each cluster the write
/// starts no later than the first operation finishes.
pub fn least_deltas_exist()
    ensures { LeastDeltasExist }
{}
