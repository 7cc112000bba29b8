//! Constants, messages and their variables.

ghost use Rattle.std.specs.Prelude.{◌≡◌, ◌++◌, [], ◌∷◌, map, IfOk, IfErr, OnOk, None, false, string_bytes};
ghost use Rattle.std.specs.Option.{option_copied};
ghost use Rattle.flame_ops.specs.Ascii.{capitals};
ghost use Rattle.flame_spec.specs.KnownNames.{is_among};
ghost use Rattle.flame_spec.specs.MessageFaults.{apart_faults, constant_faults, variable_faults, variables_faults};
ghost use Rattle.flame_spec.specs.MessageFaults.{message_faults, messages_faults};
ghost use Rattle.flame_names.specs.PlacePaths.{text_of};
ghost use Rattle.flame_spec.specs.FirstFaults.{FailsFirst};
ghost use Rattle.flame_names.specs.NameLooks.{message_entry};
ghost use Rattle.flame_name_sets.specs.NameTables.{look, names_of};

use crate::faults::fault;
use crate::path::Place;
use crate::table::Capitals;
use crate::variables::{Variables, add_variable, refuse_wide};
use flame_name_sets::Names;
use flame_rows::{Fail, NoMemory, Text};
use flame_spec::{MessageType, NameFault, NameKind, Variable};
use indexmap::IndexMap;
use std::alloc::Global;
use std::marker::Model;

/// Messages by name with their variables, in the order in which they came, seen as the list of both.
#[derive(Drop)]
pub struct MessageTable<'a> {
    messages: IndexMap<&'a str, Variables<'a>>,
}

impl<'a> Model for MessageTable<'a> {
    ghost use Rattle.std.specs.Prelude.{List, ℕ, map};
    ghost use Rattle.flame_spec.specs.declared.models.Variable.{Variable as Declared};

    ghost Value = { List (List ℕ × List Declared) };

    ghost view = { λ table. map (λ entry. (entry.0.now, entry.1)) table.messages.entries };
}

impl<'a> MessageTable<'a> {
    /// No messages.
    pub fn new(alloc: Global) -> MessageTable<'a>
        ensures { result ≡ [] }
    {
        MessageTable {
            messages: IndexMap::new(alloc),
        }
    }

    /// The variables of the message of this name.
    pub fn variables(&self, name: &str) -> Option<&Variables<'a>>
        ensures { option_copied result ≡ look name.now self.now }
    {
        self.messages.get(name)
    }

    /// Whether there is a message of this name.
    pub fn has(&self, name: &str) -> bool
        ensures { result ≡ is_among name.now (names_of self.now) }
    {
        self.variables(name).is_some()
    }

    /// Adds a message of a new name.
    fn add(&mut self, name: &'a str, variables: Variables<'a>) -> Result<(), NoMemory>
        requires { look name.now self.old ≡ None }
        ensures { OnOk result (self.new ≡ self.old ++ (name.now, variables.entry) ∷ []) }
    {
        self.messages.insert(name, variables)?;
        Ok(())
    }
}

/// The text in ASCII capitals.
pub fn capitals_of(alloc: Global, name: &str) -> Result<String, NoMemory>
    ensures { IfOk result (λ text. string_bytes text ≡ capitals name.now) }
{
    Ok(name.to_ascii_uppercase(alloc)?)
}

/// Adds a name that stands at this place, and its capitals.
fn add_apart<'a>(
    alloc: Global,
    place: &Place<'_>,
    name: &'a str,
    earlier: &mut Names<'a>,
    shouted: &mut Capitals,
) -> Result<(), Fail<NameFault>>
    requires { shouted.old ≡ map capitals earlier.old }
    ensures none { OnOk result (apart_faults earlier.old (text_of place.now) name.now ≡ []) }
    ensures added { OnOk result (is_among name.now earlier.old ≡ false) }
    ensures names { OnOk result (earlier.new ≡ earlier.old ++ name.now ∷ []) }
    ensures capitals { OnOk result (shouted.new ≡ map capitals earlier.new) }
    ensures first { IfErr result (FailsFirst (apart_faults earlier.old (text_of place.now) name.now)) }
{
    if !earlier.add(name)? {
        return Err(fault(alloc, NameKind::Duplicate, place, name));
    }
    if !shouted.add(capitals_of(alloc, name)?)? {
        return Err(fault(alloc, NameKind::Clash, place, name));
    }
    Ok(())
}

/// Adds the constants of the list at this place to none, with their capitals.
fn add_constants<'a, 'p>(
    alloc: Global,
    place: &'p Place<'p>,
    constants: &'a [Text],
    earlier: &mut Names<'a>,
    shouted: &mut Capitals,
) -> Result<(), Fail<NameFault>>
    requires names { earlier.old ≡ [] }
    requires capitals { shouted.old ≡ [] }
    ensures none { OnOk result (constant_faults (text_of place.now) constants.now ≡ []) }
    ensures capitals { OnOk result (shouted.new ≡ map capitals constants.now) }
    ensures first { IfErr result (FailsFirst (constant_faults (text_of place.now) constants.now)) }
{
    for (i, name) in constants.iter().enumerate() {
        let member = Place::Member(place, i);
        add_apart(
            alloc,
            &Place::Key(&member, "name"),
            name.as_str(),
            earlier,
            shouted,
        )?;
    }
    Ok(())
}

/// Adds the capitals of the constants of the list at this place to none.
fn shout_constants<'p>(
    alloc: Global,
    place: &'p Place<'p>,
    constants: &[Text],
    shouted: &mut Capitals,
) -> Result<(), Fail<NameFault>>
    requires { shouted.old ≡ [] }
    ensures none { OnOk result (constant_faults (text_of place.now) constants.now ≡ []) }
    ensures capitals { OnOk result (shouted.new ≡ map capitals constants.now) }
    ensures first { IfErr result (FailsFirst (constant_faults (text_of place.now) constants.now)) }
{
    let mut earlier = Names::new(alloc);
    add_constants(alloc, place, constants, &mut earlier, shouted)
}

/// The constants of the list at this place, in capitals.
pub fn constants<'p>(
    alloc: Global,
    place: &'p Place<'p>,
    constants: &[Text],
) -> Result<Capitals, Fail<NameFault>>
    ensures none { OnOk result (constant_faults (text_of place.now) constants.now ≡ []) }
    ensures capitals { IfOk result (λ table. table ≡ map capitals constants.now) }
    ensures first { IfErr result (FailsFirst (constant_faults (text_of place.now) constants.now)) }
{
    let mut shouted = Capitals::new(alloc);
    shout_constants(alloc, place, constants, &mut shouted)?;
    Ok(shouted)
}

/// The variable at this place, behind the earlier ones of its message.
fn add_field<'a>(
    alloc: Global,
    place: &Place<'_>,
    variable: &'a Variable,
    earlier: &mut Variables<'a>,
) -> Result<(), Fail<NameFault>>
    ensures none { OnOk result (variable_faults earlier.old (text_of place.now) variable.now ≡ []) }
    ensures variables { OnOk result (earlier.new ≡ earlier.old ++ variable.now ∷ []) }
    ensures first { IfErr result (FailsFirst (variable_faults earlier.old (text_of place.now) variable.now)) }
{
    add_variable(alloc, place, variable, earlier)?;
    refuse_wide(alloc, place, variable, earlier)
}

/// The variables of the list at this place, in a message.
fn variables<'a, 'p>(
    alloc: Global,
    place: &'p Place<'p>,
    variables: &'a [Variable],
) -> Result<Variables<'a>, Fail<NameFault>>
    ensures none { OnOk result (variables_faults (text_of place.now) variables.now ≡ []) }
    ensures variables { IfOk result (λ table. table ≡ variables.now) }
    ensures first { IfErr result (FailsFirst (variables_faults (text_of place.now) variables.now)) }
{
    let mut earlier = Variables::new(alloc);
    for (i, variable) in variables.iter().enumerate() {
        add_field(alloc, &Place::Member(place, i), variable, &mut earlier)?;
    }
    Ok(earlier)
}

/// Adds the message at this place: its name, and then its variables.
fn add_message<'a>(
    alloc: Global,
    place: &Place<'_>,
    message: &'a MessageType,
    earlier: &mut Names<'a>,
    shouted: &mut Capitals,
) -> Result<Variables<'a>, Fail<NameFault>>
    requires { shouted.old ≡ map capitals earlier.old }
    ensures none { OnOk result (message_faults earlier.old (text_of place.now) message.now ≡ []) }
    ensures added { OnOk result (is_among message.now.name earlier.old ≡ false) }
    ensures names { OnOk result (earlier.new ≡ earlier.old ++ message.now.name ∷ []) }
    ensures capitals { OnOk result (shouted.new ≡ map capitals earlier.new) }
    ensures variables { IfOk result (λ table. table ≡ message.now.variables) }
    ensures first { IfErr result (FailsFirst (message_faults earlier.old (text_of place.now) message.now)) }
{
    add_apart(
        alloc,
        &Place::Key(place, "name"),
        message.name.as_str(),
        earlier,
        shouted,
    )?;
    variables(
        alloc,
        &Place::Key(place, "variables"),
        message.variables.items(),
    )
}

/// Adds the messages of the list at this place to none, with their names and capitals.
fn add_messages<'a, 'p>(
    alloc: Global,
    place: &'p Place<'p>,
    messages: &'a [MessageType],
    earlier: &mut Names<'a>,
    shouted: &mut Capitals,
    known: &mut MessageTable<'a>,
) -> Result<(), Fail<NameFault>>
    requires names { earlier.old ≡ [] }
    requires capitals { shouted.old ≡ [] }
    requires messages { known.old ≡ [] }
    ensures none { OnOk result (messages_faults (text_of place.now) messages.now ≡ []) }
    ensures messages { OnOk result (known.new ≡ map message_entry messages.now) }
    ensures first { IfErr result (FailsFirst (messages_faults (text_of place.now) messages.now)) }
{
    for (i, message) in messages.iter().enumerate() {
        let place = Place::Member(place, i);
        let variables = add_message(alloc, &place, message, earlier, shouted)?;
        known.add(message.name.as_str(), variables)?;
    }
    Ok(())
}

/// Adds the messages of the list at this place to none.
fn fill_messages<'a, 'p>(
    alloc: Global,
    place: &'p Place<'p>,
    messages: &'a [MessageType],
    known: &mut MessageTable<'a>,
) -> Result<(), Fail<NameFault>>
    requires { known.old ≡ [] }
    ensures none { OnOk result (messages_faults (text_of place.now) messages.now ≡ []) }
    ensures messages { OnOk result (known.new ≡ map message_entry messages.now) }
    ensures first { IfErr result (FailsFirst (messages_faults (text_of place.now) messages.now)) }
{
    let mut earlier = Names::new(alloc);
    let mut shouted = Capitals::new(alloc);
    add_messages(alloc, place, messages, &mut earlier, &mut shouted, known)
}

/// The messages of the list at this place, with their variables.
pub fn messages<'a, 'p>(
    alloc: Global,
    place: &'p Place<'p>,
    messages: &'a [MessageType],
) -> Result<MessageTable<'a>, Fail<NameFault>>
    ensures none { OnOk result (messages_faults (text_of place.now) messages.now ≡ []) }
    ensures messages { IfOk result (λ table. table ≡ map message_entry messages.now) }
    ensures first { IfErr result (FailsFirst (messages_faults (text_of place.now) messages.now)) }
{
    let mut known = MessageTable::new(alloc);
    fill_messages(alloc, place, messages, &mut known)?;
    Ok(known)
}
