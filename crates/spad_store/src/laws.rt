//! What holds of any two units, as the contract of a function that does nothing. A caller of the function may use it.
ghost use Rattle.ven_base.specs.Exchange.{ExchangeBeats, MoveManyPastOne};

use crate::Unit;

/// Where the works of two units share no place that one of them writes, a beat of each may change places, and so may
/// many beats of one, none of them a work's last, and a beat of the other.
pub fn exchange_laws<A: Unit, B: Unit>()
    ensures exchange { (made : A.Setting) (other_made : B.Setting) → A.can_have made → B.can_have other_made
        → ExchangeBeats
        (record { course = A.course made; reads = A.reads; writes = A.writes })
        (record { course = B.course other_made; reads = B.reads; writes = B.writes }) }
    ensures many { (made : A.Setting) (other_made : B.Setting) → A.can_have made → B.can_have other_made
        → MoveManyPastOne
        (record { course = A.course made; reads = A.reads; writes = A.writes })
        (record { course = B.course other_made; reads = B.reads; writes = B.writes }) }
{}
