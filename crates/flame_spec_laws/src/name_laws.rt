//! Laws of models without name faults. A law is its contract: it computes nothing.

ghost use Rattle.flame_spec_laws.specs.NameLaws.{ConstantsDiffer, UnitsDiffer, MessagesDiffer, TypesDiffer, LengthsAreKnown};
ghost use Rattle.flame_spec_laws.specs.NameLaws.{LengthsMultiply};
ghost use Rattle.flame_spec_laws.specs.MemberLaws.{TypeVariablesDiffer, MessageVariablesDiffer, InputsDiffer, OutputsDiffer};
ghost use Rattle.flame_spec_laws.specs.MemberLaws.{FunctionsOfTypesDiffer, TransitionsDiffer};

/// In a model without name faults the constants and the messages differ, in capitals too, the time units differ from
/// each other and from `iteration`, and the agent types differ.
pub fn names_differ()
    ensures constants { ConstantsDiffer }
    ensures units { UnitsDiffer }
    ensures messages { MessagesDiffer }
    ensures types { TypesDiffer }
{}

/// In a model without name faults the variables of a type differ, in capitals too, and from the constants in capitals;
/// the variables of a message differ; a function reads and outputs no message twice; functions of different types have
/// different names, but for `idle`; and transitions of a type differ in their names or in their states.
pub fn members_differ()
    ensures memory { TypeVariablesDiffer }
    ensures messages { MessageVariablesDiffer }
    ensures inputs { InputsDiffer }
    ensures outputs { OutputsDiffer }
    ensures functions { FunctionsOfTypesDiffer }
    ensures transitions { TransitionsDiffer }
{}

/// In a model without name faults whose time units are well formed, each unit has a length: from 1 to 2147483647
/// iterations. It is its period times the length of the unit that it is measured in, and `iteration` has one.
pub fn unit_lengths()
    ensures known { LengthsAreKnown }
    ensures product { LengthsMultiply }
{}
