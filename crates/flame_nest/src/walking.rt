//! The walk over all files.

ghost use Rattle.std.specs.Prelude.{◌≡◌, ◌++◌, ℕ, List, [], map, length, not, IfOk, IfErr, OnOk};
ghost use Rattle.std.specs.List.{filter, fold};
ghost use Rattle.flame_spec.specs.KnownNames.{is_among};
ghost use Rattle.flame_nest.specs.FlatModels.{joined_types, joined_messages};
ghost use Rattle.flame_nest.specs.NestFaults.{type_names, of_type, of_message, nest_faults};
ghost use Rattle.flame_nest.specs.GivenTables.{given_in, with_declaration};
ghost use Rattle.flame_nest.specs.FileWalks.{known_with, walk_faults};
ghost use Rattle.flame_spec.specs.FirstFaults.{FailsFirst};

use crate::earlier::Earlier;
use crate::faults::NestFault;
use crate::kinds::Kinds;
use crate::messages::{check_agents, check_messages, keep_new};
use crate::types::check_types;
use flame_rows::{Fail, Text};
use flame_spec::{Wide, WideMessage};
use std::alloc::Global;

/// What a walk over all files has found.
#[derive(Drop)]
pub struct Found<'a> {
    /// The data types.
    pub kinds: Kinds<'a>,
    /// The messages, without those that are passed over.
    pub messages: Vec<&'a WideMessage>,
}

/// Adds the data types of a file. It has no fault.
fn check_file<'a>(
    alloc: Global,
    file: &Text,
    types: &Earlier<'_>,
    messages: &Earlier<'_>,
    kinds: &mut Kinds<'a>,
    wide: &'a Wide,
) -> Result<(), Fail<NestFault>>
    requires known { (name : List ℕ) → is_among name (type_names kinds.old) ≡ (given_in types.now).has name }
    ensures none { OnOk result
        (walk_faults file.now (given_in types.now) (given_in messages.now) kinds.old wide.now ≡ []) }
    ensures kinds { OnOk result (kinds.new ≡ known_with kinds.old wide.now) }
    ensures first { IfErr result
        (FailsFirst (walk_faults file.now (given_in types.now) (given_in messages.now) kinds.old wide.now)) }
{
    check_types(alloc, file, types, kinds, wide.types.items())?;
    check_messages(alloc, file, messages, kinds, wide.messages.items())?;
    check_agents(alloc, file, kinds, wide.agents.items())
}

/// What the files declare that were walked so far.
#[derive(Drop)]
struct Walk<'a> {
    types: Earlier<'a>,
    messages: Earlier<'a>,
    kinds: Kinds<'a>,
    kept: Vec<&'a WideMessage>,
}

impl<'a> Walk<'a> {
    /// Walks one file more. It has no fault.
    fn add(&mut self, alloc: Global, file: &Text, wide: &'a Wide) -> Result<(), Fail<NestFault>>
        requires known { (name : List ℕ)
            → is_among name (type_names self.old.kinds) ≡ (given_in self.old.types).has name }
        ensures none { OnOk result (walk_faults file.now (given_in self.old.types) (given_in self.old.messages)
            self.old.kinds wide.now ≡ []) }
        ensures types { OnOk result
            (self.new.types ≡ fold with_declaration self.old.types (map of_type wide.now.types)) }
        ensures messages { OnOk result
            (self.new.messages ≡ fold with_declaration self.old.messages (map of_message wide.now.messages)) }
        ensures kinds { OnOk result (self.new.kinds ≡ known_with self.old.kinds wide.now) }
        ensures kept { OnOk result
            (map (λ message. message.now) self.new.kept.items
            ≡ map (λ message. message.now) self.old.kept.items
            ++ filter (λ message. not ((given_in self.old.messages).has message.name)) wide.now.messages) }
        ensures first { IfErr result (FailsFirst (walk_faults file.now (given_in self.old.types)
            (given_in self.old.messages) self.old.kinds wide.now)) }
    {
        check_file(
            alloc,
            file,
            &self.types,
            &self.messages,
            &mut self.kinds,
            wide,
        )?;
        keep_new(&self.messages, wide.messages.items(), &mut self.kept)?;
        self.types.add_types(wide.types.items())?;
        self.messages.add_messages(wide.messages.items())?;
        Ok(())
    }
}

/// What files without a fault declare together.
pub fn check_files<'a>(
    alloc: Global,
    files: &[Text],
    wides: &'a [Wide],
) -> Result<Found<'a>, Fail<NestFault>>
    requires { length files.now ≡ length wides.now }
    ensures none { OnOk result (nest_faults files.now wides.now ≡ []) }
    ensures kinds { IfOk result (λ found. found.kinds ≡ joined_types wides.now) }
    ensures messages { IfOk result (λ found.
        map (λ message. message.now) found.messages.items ≡ joined_messages wides.now) }
    ensures first { IfErr result (FailsFirst (nest_faults files.now wides.now)) }
{
    let mut walk = Walk {
        types: Earlier::new(alloc),
        messages: Earlier::new(alloc),
        kinds: Kinds::new(alloc),
        kept: Vec::new(alloc),
    };
    for i in 0..wides.len() {
        walk.add(alloc, &files[i], &wides[i])?;
    }
    Ok(Found {
        kinds: walk.kinds,
        messages: walk.kept,
    })
}
