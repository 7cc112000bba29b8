//! What earlier files have declared.

ghost use Rattle.std.specs.Prelude.{◌≡◌, [], map, option_map, OnOk};
ghost use Rattle.std.specs.List.{fold};
ghost use Rattle.std.specs.Cmp.Lexicographic.{pointwise};
ghost use Rattle.flame_nest.specs.NestFaults.{is_alike, of_type, of_message};
ghost use Rattle.flame_name_sets.specs.NameTables.{look};
ghost use Rattle.flame_nest.specs.GivenTables.{given_in, with_declaration, agreed_with, shown_agreed, differs_from};

use flame_rows::{NoMemory, Same, Seq, Text};
use flame_spec::{DataType, WideMessage, WideVariable};
use indexmap::IndexMap;
use std::alloc::Global;
use std::marker::Model;

/// Names of messages or data types, in the order in which they came, each with the variables that all its declarations
/// have, if they agree; seen as the list of both.
#[derive(Drop)]
pub struct Earlier<'a> {
    names: IndexMap<&'a str, Option<&'a Seq<WideVariable>>>,
}

impl<'a> Model for Earlier<'a> {
    ghost use Rattle.std.specs.Prelude.{map};
    ghost use Rattle.flame_nest.specs.GivenTables.{GivenTable, shown_agreed};

    ghost Value = { GivenTable };

    ghost view = { λ table. map (λ entry. (entry.0.now, shown_agreed entry.1)) table.names.entries };
}

/// Whether both lists have the same names, kinds and lengths.
fn are_alike(variables: &Seq<WideVariable>, others: &Seq<WideVariable>) -> bool
    ensures { result ≡ pointwise is_alike variables.now others.now }
{
    variables.same(others)
}

impl<'a> Earlier<'a> {
    /// Nothing.
    pub fn new(alloc: Global) -> Earlier<'a>
        ensures { result ≡ [] }
    {
        Earlier {
            names: IndexMap::new(alloc),
        }
    }

    /// What the declarations of the name agree on, where there are any.
    fn find(&self, name: &Text) -> Option<Option<&'a Seq<WideVariable>>>
        ensures { option_map shown_agreed result ≡ look name.now self.now }
    {
        self.names.get(name.as_str()).copied()
    }

    /// Whether the name was declared.
    pub fn has(&self, name: &Text) -> bool
        ensures { result ≡ (given_in self.now).has name.now }
    {
        self.find(name).is_some()
    }

    /// Whether the name was declared with other variables.
    pub fn differs(&self, name: &Text, variables: &Seq<WideVariable>) -> bool
        ensures { result ≡ differs_from variables.now (look name.now self.now) }
    {
        match self.find(name) {
            None => false,
            Some(None) => true,
            Some(Some(agreed)) => !are_alike(agreed, variables),
        }
    }

    /// What the declarations of the name agree on, one of these variables with them.
    fn agreed(&self, name: &Text, variables: &'a Seq<WideVariable>) -> Option<&'a Seq<WideVariable>>
        ensures { shown_agreed result ≡ agreed_with variables.now (look name.now self.now) }
    {
        match self.find(name) {
            None => Some(variables),
            Some(None) => None,
            Some(Some(agreed)) => {
                if are_alike(agreed, variables) {
                    Some(agreed)
                } else {
                    None
                }
            }
        }
    }

    /// Notes a declaration.
    fn add(&mut self, name: &'a Text, variables: &'a Seq<WideVariable>) -> Result<(), NoMemory>
        ensures { OnOk result
            (self.new ≡ with_declaration self.old (record { name = name.now; variables = variables.now })) }
    {
        let agreed = self.agreed(name, variables);
        self.names.insert(name.as_str(), agreed)?;
        Ok(())
    }

    /// Notes the data types of a file.
    pub fn add_types(&mut self, types: &'a [DataType]) -> Result<(), NoMemory>
        ensures { OnOk result (self.new ≡ fold with_declaration self.old (map of_type types.now)) }
    {
        for declared in types {
            self.add(&declared.name, &declared.variables)?;
        }
        Ok(())
    }

    /// Notes the messages of a file.
    pub fn add_messages(&mut self, messages: &'a [WideMessage]) -> Result<(), NoMemory>
        ensures { OnOk result (self.new ≡ fold with_declaration self.old (map of_message messages.now)) }
    {
        for message in messages {
            self.add(&message.name, &message.variables)?;
        }
        Ok(())
    }
}
