//! What is found is good exactly where the definitions say so.
ghost use Rattle.cert_checker.specs.Laws.{OrdersAreFoundGood, RefutationsAreFoundGood, VerdictsAreFoundGood, CertificatesAreFoundGood};

/// What `check_order` finds is good exactly where the list is an order.
pub fn orders_are_found_good()
    ensures { OrdersAreFoundGood }
{}

/// What `check_refutation_at` finds is good exactly where the refutation holds at d.
pub fn refutations_are_found_good()
    ensures { RefutationsAreFoundGood }
{}

/// What `check_key` finds is good exactly where the verdict is shown.
pub fn verdicts_are_found_good()
    ensures { VerdictsAreFoundGood }
{}

/// What `check_all` finds is good exactly where each verdict is shown.
pub fn certificates_are_found_good()
    ensures { CertificatesAreFoundGood }
{}
