//! Laws of the names that a model uses. A law is its contract: it computes nothing.

ghost use Rattle.flame_spec_laws.specs.UsedNames.{UsedNamesAreDeclared};
ghost use Rattle.flame_spec_laws.specs.NameCases.{ConstantAndVariableClash, UnitsAreMeasured, CalendarIsMeasured};
ghost use Rattle.flame_spec_laws.specs.NameCases.{ArraysAreNotSingle, RowsAreTooWide};

/// In a model without name faults each name that a condition, an input, a filter, a sort or an output uses is declared,
/// each variable that a condition, a filter, a phase or the key of a sort reads is a single one of the memory or of the
/// message, and no random order is asked for.
pub fn used_names()
    ensures { UsedNamesAreDeclared }
{}

/// Small models, worked by hand: a variable that is a constant in capitals, units that are unknown or too long, a unit
/// of a unit of a unit, arrays where single variables are read, and rows of 4,096 and 4,097 numbers.
pub fn used_names_cases()
    ensures clash { ConstantAndVariableClash }
    ensures units { UnitsAreMeasured }
    ensures calendar { CalendarIsMeasured }
    ensures arrays { ArraysAreNotSingle }
    ensures wide { RowsAreTooWide }
{}
