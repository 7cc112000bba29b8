//! Functions, with what they read and add.

ghost use Rattle.std.specs.Prelude.{◌≡◌, ◌++◌, [], ◌∷◌, ℕ, List, IfErr, OnOk, not};
ghost use Rattle.flame_spec.specs.KnownNames.{is_among};
ghost use Rattle.flame_spec.specs.Leaves.{condition_faults};
ghost use Rattle.flame_spec.specs.FunctionFaults.{condition_scope, sort_faults, reading_faults, use_faults, input_faults, inputs_faults, outputs_faults, functions_faults};
ghost use Rattle.flame_names.specs.PlacePaths.{text_of};
ghost use Rattle.flame_spec.specs.FirstFaults.{FailsFirst};
ghost use Rattle.flame_names.specs.NameLooks.{transition_of};
ghost use Rattle.flame_names.specs.TableScopes.{scope_of, declared_of};
ghost use Rattle.flame_names.specs.FunctionTitles.{title_at, function_at};

use crate::faults::{add_new, fault, refuse};
use crate::leaves::{Scope, condition};
use crate::lengths::Lengths;
use crate::messages::MessageTable;
use crate::path::Place;
use crate::table::{Capitals, Transitions};
use crate::variables::{Variables, single};
use flame_name_sets::Names;
use flame_rows::{Fail, Text};
use flame_spec::{Condition, Function, Input, NameFault, NameKind, Sort};
use std::alloc::Global;

/// What a model declares for its agent types.
#[derive(Clone, Copy)]
pub struct Tables<'s, 'a> {
    /// The constants, in capitals.
    pub constants: &'s Capitals,
    /// The time units.
    pub units: &'s Lengths<'a>,
    /// The messages with their variables.
    pub messages: &'s MessageTable<'a>,
}

impl<'s, 'a> Tables<'s, 'a> {
    /// The messages with their variables.
    fn messages(&self) -> &'s MessageTable<'a>
        ensures { result.now ≡ self.now.messages.now }
    {
        self.messages
    }
}

/// The key of a sort, where there is one.
fn sort(
    alloc: Global,
    variables: &Variables<'_>,
    place: &Place<'_>,
    sort: &Option<Sort>,
) -> Result<(), Fail<NameFault>>
    ensures none { OnOk result (sort_faults variables.now (text_of place.now) sort.now ≡ []) }
    ensures first { IfErr result (FailsFirst (sort_faults variables.now (text_of place.now) sort.now)) }
{
    match sort {
        None => Ok(()),
        Some(sort) => single(
            alloc,
            variables,
            &Place::Key(place, "key"),
            "",
            sort.key.as_str(),
        ),
    }
}

/// How an input reads its message, where its filter has this scope.
fn reading(
    alloc: Global,
    scope: &Scope<'_, '_>,
    place: &Place<'_>,
    input: &Input,
) -> Result<(), Fail<NameFault>>
    ensures none { OnOk result (reading_faults (scope_of scope.now) (text_of place.now) input.now ≡ []) }
    ensures first { IfErr result
        (FailsFirst (reading_faults (scope_of scope.now) (text_of place.now) input.now)) }
{
    let name = input.message.as_str();
    refuse(
        alloc,
        input.random,
        NameKind::RandomOrder,
        &Place::Key(place, "random"),
        name,
    )?;
    condition(alloc, scope, &Place::Key(place, "filter"), &input.filter)?;
    sort(
        alloc,
        scope.message,
        &Place::Key(place, "sort"),
        &input.sort,
    )
}

/// An input behind the earlier ones of its function.
fn add_input<'a>(
    alloc: Global,
    tables: &Tables<'_, '_>,
    memory: &Variables<'_>,
    place: &Place<'_>,
    input: &'a Input,
    earlier: &mut Names<'a>,
) -> Result<(), Fail<NameFault>>
    ensures none { OnOk result
        (input_faults (declared_of tables.now) memory.now earlier.old (text_of place.now) input.now ≡ []) }
    ensures names { OnOk result (earlier.new ≡ earlier.old ++ input.now.message ∷ []) }
    ensures first { IfErr result
        (FailsFirst (input_faults (declared_of tables.now) memory.now earlier.old (text_of place.now) input.now)) }
{
    let name = input.message.as_str();
    let Some(variables) = tables.messages().variables(name) else {
        return Err(fault(
            alloc,
            NameKind::UnknownMessage,
            &Place::Key(place, "messageName"),
            name,
        ));
    };
    add_new(alloc, &Place::Key(place, "messageName"), name, earlier)?;
    let scope = Scope {
        memory,
        message: variables,
        units: tables.units,
    };
    reading(alloc, &scope, place, input)
}

/// The inputs of the list at this place.
fn inputs<'p>(
    alloc: Global,
    tables: &Tables<'_, '_>,
    memory: &Variables<'_>,
    place: &'p Place<'p>,
    inputs: &[Input],
) -> Result<(), Fail<NameFault>>
    ensures none { OnOk result
        (inputs_faults (declared_of tables.now) memory.now (text_of place.now) inputs.now ≡ []) }
    ensures first { IfErr result
        (FailsFirst (inputs_faults (declared_of tables.now) memory.now (text_of place.now) inputs.now)) }
{
    let mut earlier = Names::new(alloc);
    for (i, input) in inputs.iter().enumerate() {
        add_input(
            alloc,
            tables,
            memory,
            &Place::Member(place, i),
            input,
            &mut earlier,
        )?;
    }
    Ok(())
}

/// An output behind the earlier ones of its function.
fn add_output<'a>(
    alloc: Global,
    tables: &Tables<'_, '_>,
    place: &Place<'_>,
    name: &'a str,
    earlier: &mut Names<'a>,
) -> Result<(), Fail<NameFault>>
    ensures none { OnOk result
        (use_faults (declared_of tables.now) earlier.old (text_of place.now) name.now ≡ []) }
    ensures names { OnOk result (earlier.new ≡ earlier.old ++ name.now ∷ []) }
    ensures first { IfErr result
        (FailsFirst (use_faults (declared_of tables.now) earlier.old (text_of place.now) name.now)) }
{
    let is_known = tables.messages().has(name);
    refuse(
        alloc,
        !is_known,
        NameKind::UnknownMessage,
        &Place::Key(place, "messageName"),
        name,
    )?;
    add_new(alloc, &Place::Key(place, "messageName"), name, earlier)
}

/// The outputs of the list at this place.
fn outputs<'p>(
    alloc: Global,
    tables: &Tables<'_, '_>,
    place: &'p Place<'p>,
    outputs: &[Text],
) -> Result<(), Fail<NameFault>>
    ensures none { OnOk result
        (outputs_faults (declared_of tables.now) (text_of place.now) outputs.now ≡ []) }
    ensures first { IfErr result
        (FailsFirst (outputs_faults (declared_of tables.now) (text_of place.now) outputs.now)) }
{
    let mut earlier = Names::new(alloc);
    for (i, name) in outputs.iter().enumerate() {
        add_output(
            alloc,
            tables,
            &Place::Member(place, i),
            name.as_str(),
            &mut earlier,
        )?;
    }
    Ok(())
}

/// The name of a function that stands at this place, behind the earlier ones of its type.
fn add_title<'a>(
    alloc: Global,
    shared: &Names<'_>,
    place: &Place<'_>,
    function: &'a Function,
    earlier: &mut Transitions<'a>,
) -> Result<(), Fail<NameFault>>
    ensures none { OnOk result
        (title_at (λ name. is_among name shared.now) earlier.old (text_of place.now) function.now ≡ []) }
    ensures names { OnOk result (earlier.new ≡ earlier.old ++ transition_of function.now ∷ []) }
    ensures first { IfErr result
        (FailsFirst (title_at (λ name. is_among name shared.now) earlier.old (text_of place.now) function.now)) }
{
    let name = function.name.as_str();
    let is_shared = name != "idle" && shared.has(name);
    refuse(alloc, is_shared, NameKind::FunctionShared, place, name)?;
    if !earlier.add(function)? {
        return Err(fault(alloc, NameKind::Duplicate, place, name));
    }
    Ok(())
}

/// The condition of a function, which reads no message.
fn function_condition(
    alloc: Global,
    tables: &Tables<'_, '_>,
    memory: &Variables<'_>,
    place: &Place<'_>,
    value: &Option<Condition>,
) -> Result<(), Fail<NameFault>>
    ensures none { OnOk result (condition_faults
        (condition_scope (declared_of tables.now) memory.now) (text_of place.now) value.now ≡ []) }
    ensures first { IfErr result (FailsFirst (condition_faults
        (condition_scope (declared_of tables.now) memory.now) (text_of place.now) value.now)) }
{
    let nothing = Variables::new(alloc);
    let scope = Scope {
        memory,
        message: &nothing,
        units: tables.units,
    };
    condition(alloc, &scope, place, value)
}

/// A function behind the earlier ones of its type.
fn add_function<'a, 'p>(
    alloc: Global,
    tables: &Tables<'_, '_>,
    memory: &Variables<'_>,
    shared: &Names<'_>,
    place: &'p Place<'p>,
    function: &'a Function,
    earlier: &mut Transitions<'a>,
) -> Result<(), Fail<NameFault>>
    ensures none { OnOk result (function_at
        (declared_of tables.now)
        memory.now
        (λ name. is_among name shared.now)
        earlier.old
        (text_of place.now)
        function.now ≡ []) }
    ensures names { OnOk result (earlier.new ≡ earlier.old ++ transition_of function.now ∷ []) }
    ensures first { IfErr result (FailsFirst (function_at
        (declared_of tables.now)
        memory.now
        (λ name. is_among name shared.now)
        earlier.old
        (text_of place.now)
        function.now)) }
{
    add_title(alloc, shared, &Place::Key(place, "name"), function, earlier)?;
    function_condition(
        alloc,
        tables,
        memory,
        &Place::Key(place, "condition"),
        &function.condition,
    )?;
    inputs(
        alloc,
        tables,
        memory,
        &Place::Key(place, "inputs"),
        function.inputs.items(),
    )?;
    outputs(
        alloc,
        tables,
        &Place::Key(place, "outputs"),
        function.outputs.items(),
    )
}

/// The functions of the list at this place, in a type with this memory, where earlier types have functions of the
/// shared names.
pub fn functions<'p>(
    alloc: Global,
    tables: &Tables<'_, '_>,
    memory: &Variables<'_>,
    shared: &Names<'_>,
    place: &'p Place<'p>,
    functions: &[Function],
) -> Result<(), Fail<NameFault>>
    ensures none { OnOk result (functions_faults
        (declared_of tables.now)
        memory.now
        (λ name. is_among name shared.now)
        (text_of place.now)
        functions.now ≡ []) }
    ensures first { IfErr result (FailsFirst (functions_faults
        (declared_of tables.now)
        memory.now
        (λ name. is_among name shared.now)
        (text_of place.now)
        functions.now)) }
{
    let mut earlier = Transitions::new(alloc);
    for (i, function) in functions.iter().enumerate() {
        let place = Place::Member(place, i);
        add_function(
            alloc,
            tables,
            memory,
            shared,
            &place,
            function,
            &mut earlier,
        )?;
    }
    Ok(())
}
