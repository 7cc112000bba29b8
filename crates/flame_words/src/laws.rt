//! Laws of command lines. Each function is its contract: it computes nothing.

ghost use Rattle.flame_words.specs.UsageLaws.{FirstFaultRefuses, OrderWithoutFaults, OneFaultPerWord, FaultsNameWords};
ghost use Rattle.flame_words.specs.UsageLaws.{ManyWordsAreRefused, OrdersAreWithin};

/// Words give an order exactly where they have no fault, and else are refused for the first of their faults.
pub fn first_fault()
    ensures refuses { FirstFaultRefuses }
    ensures order { OrderWithoutFaults }
{}

/// The faults are listed in the order of the words, at most one a word.
pub fn one_fault_a_word()
    ensures order { OneFaultPerWord }
    ensures words { FaultsNameWords }
{}

/// However many words there are, the first fault lies among the first thirty: so its number needs no condition.
pub fn many_words()
    ensures { ManyWordsAreRefused }
{}

/// The numbers of an order are within their limits.
pub fn limits()
    ensures { OrdersAreWithin }
{}
