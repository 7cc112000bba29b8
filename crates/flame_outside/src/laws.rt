//! Laws of what stays over some calls, and of scripts. A law is its contract: it computes nothing.

ghost use Rattle.flame_outside.specs.FrameLaws.{WholeIsAFront, NothingDone, PartsJoin, FramesGoOn, FailuresStay, CalmFailsNot};
ghost use Rattle.flame_outside.specs.WhatIsTold.{WholeIsTold, FirstIsTold};
ghost use Rattle.flame_outside.specs.ScriptLaws.{NoActs, OneMoreAct, LoneActs, WholeScripts, ScriptsJoin, ReadsStandAside, CalmScripts};

/// What is said of some calls holds where none is made, and of two parts together. A failure in a part is one in the
/// whole, and nothing fails on a device that never fails.
pub fn frames()
    ensures front { WholeIsAFront }
    ensures nothing { NothingDone }
    ensures join { PartsJoin }
    ensures go_on { FramesGoOn }
    ensures failures { FailuresStay }
    ensures calm { CalmFailsNot }
{}

/// How a script comes to stand: act by act, and part by part.
pub fn scripts()
    ensures no_acts { NoActs }
    ensures lone { LoneActs }
    ensures one_more { OneMoreAct }
    ensures whole { WholeScripts }
    ensures join { ScriptsJoin }
{}

/// What stands of a script, in plain words: its first files, every other name as it was but for one in doubt, and a front
/// of the text that it prints.
pub fn told_scripts()
    ensures whole { WholeIsTold }
    ensures first { FirstIsTold }
{}

/// Reads leave a script as it stands, and no act of it fails on devices that never fail.
pub fn quiet_scripts()
    ensures reads { ReadsStandAside }
    ensures calm { CalmScripts }
{}
