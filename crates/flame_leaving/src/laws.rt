//! Laws of what agents leave. The function is its contract: it computes nothing.

ghost use Rattle.flame_leaving.specs.WholeLaws.{AgentsAddUp, SurvivorsMerge, MessagesMerge, BirthsMerge};
ghost use Rattle.flame_leaving.specs.WholeLaws.{FaultIsTheLeast, LeavingsAddUp};

/// Parts make the whole, however some agents are parted: their survivors, the messages of each type and the births of
/// each type are those of the parts, merged; and the least fault is the lesser of those of the parts, by the content of
/// the memories at entry. So what all leave, as one value, is what the parts leave.
pub fn parts_make_the_whole()
    ensures count { AgentsAddUp }
    ensures survivors { SurvivorsMerge }
    ensures messages { MessagesMerge }
    ensures births { BirthsMerge }
    ensures fault { FaultIsTheLeast }
    ensures all { LeavingsAddUp }
{}
