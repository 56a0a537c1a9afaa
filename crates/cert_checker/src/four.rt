//! The four records that show why there is no order below delta.
ghost use Rattle.std.specs.Prelude.{◌≡◌, ◌≢◌, IsTrue, ◌↔◌, ◌^◌, ◌<◌};
ghost use Rattle.stale_model.specs.Operations.{operations, latest_finish};
ghost use Rattle.stale_model.specs.Valid.{IsValidKey};
ghost use Rattle.stale_model.specs.Faults.{IsMatchedKey};
ghost use Rattle.stale_model.specs.Shown.{FourHold};
ghost use Rattle.cert_checker.specs.Fours.{OpsHold};

use crate::Found;
use crate::records::{precedes, search};
use stale_model::{Four, KeyOps, Op};

// Whether four operations are of two clusters, and one of each precedes one of the other at d.
fn ops_hold(d: u64, p: &Op, q: &Op, q2: &Op, p2: &Op) -> bool
    requires p_ends { latest_finish p.now < 2 ^ 64 }
    requires q2_ends { latest_finish q2.now < 2 ^ 64 }
    ensures { IsTrue result ↔ OpsHold d p.now q.now q2.now p2.now }
{
    p.value == p2.value
        && q.value == q2.value
        && p.value != q.value
        && precedes(d, p, q)
        && precedes(d, q2, p2)
}

/// Whether the four records hold at d.
pub(crate) fn four_hold(d: u64, key: &KeyOps, four: &Four) -> bool
    requires { IsValidKey key.now }
    ensures { IsTrue result ↔ FourHold (operations key.now) d four.now }
{
    let Some(p) = search(key, four.p) else {
        return false;
    };
    let Some(q) = search(key, four.q) else {
        return false;
    };
    let Some(q2) = search(key, four.q2) else {
        return false;
    };
    let Some(p2) = search(key, four.p2) else {
        return false;
    };
    ops_hold(d, &p.op, &q.op, &q2.op, &p2.op)
}

/// Whether four records show that no order exists at d, nor below: they are of two clusters, each before the other. Else rule 5,
/// with the record p. For a valid key that is neither duplicate nor unmatched; takes no memory.
pub fn check_four(d: u64, key: &KeyOps, four: &Four) -> Found
    requires valid { IsValidKey key.now }
    requires matched { IsMatchedKey (operations key.now) }
    ensures good { (result ≡ Found.Good) ↔ FourHold (operations key.now) d four.now }
    ensures bad { result ≢ Found.Good → result ≡ Found.Bad 5 four.now.p }
{
    if four_hold(d, key, four) {
        Found::Good
    } else {
        Found::Bad {
            rule: 5,
            rec: four.p,
        }
    }
}
