//! The law of many cycles at once, as a function without arguments whose contract is the law.

ghost use Rattle.venice_machine.specs.AtOnce.{CyclesAtOnce};

/// Cycles in which the host waits, no work ends and no two first works conflict leave what all their beats leave, one
/// unit after another.
pub fn cycles_at_once()
    ensures { CyclesAtOnce }
{}
