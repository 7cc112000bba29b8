//! Time units.

ghost use Rattle.std.specs.Prelude.{◌≡◌, ◌++◌, ◌*ℤ◌, ◌≤ℤ◌, pos, [], ◌∷◌, ℕ, List, IfOk, IfErr, OnOk, None, Some, is_some, not, if◌then◌else◌};
ghost use Rattle.flame_spec.specs.UnitFaults.{units_faults};
ghost use Rattle.flame_names.specs.PlacePaths.{text_of};
ghost use Rattle.flame_spec.specs.FirstFaults.{FailsFirst};
ghost use Rattle.flame_name_sets.specs.NameTables.{look, names_of};
ghost use Rattle.flame_names.specs.UnitTables.{started, unit_at, with_unit, floored};
ghost use Rattle.flame_spec.specs.KnownNames.{is_among, unit_names};

use crate::faults::{fault, refuse};
use crate::path::Place;
use flame_rows::{Fail, NoMemory};
use flame_spec::{NameFault, NameKind, TimeUnit};
use indexmap::IndexMap;
use std::alloc::Global;
use std::marker::Model;

/// Time units with their lengths in iterations, in the order in which they came, seen as the list of both.
#[derive(Drop)]
pub struct Lengths<'a> {
    lengths: IndexMap<&'a str, i32>,
}

impl<'a> Model for Lengths<'a> {
    ghost use Rattle.std.specs.Prelude.{List, ℕ, ℤ, map};

    ghost Value = { List (List ℕ × ℤ) };

    ghost view = { λ table. map (λ entry. (entry.0.now, entry.1)) table.lengths.entries };
}

impl<'a> Lengths<'a> {
    /// No unit but `iteration`, which is one iteration long.
    pub fn new(alloc: Global) -> Result<Lengths<'a>, NoMemory>
        ensures { IfOk result (λ table. table ≡ started) }
    {
        let mut table = Lengths {
            lengths: IndexMap::new(alloc),
        };
        table.add("iteration", 1)?;
        Ok(table)
    }

    /// The length of the unit of this name.
    fn of(&self, name: &str) -> Option<i32>
        ensures { result ≡ look name.now self.now }
    {
        self.lengths.get(name).copied()
    }

    /// Whether there is a unit of this name.
    pub fn has(&self, name: &str) -> bool
        ensures { result ≡ is_among name.now (names_of self.now) }
    {
        self.of(name).is_some()
    }

    /// Adds a unit of a new name.
    fn add(&mut self, name: &'a str, length: i32) -> Result<(), NoMemory>
        requires { look name.now self.old ≡ None }
        ensures { OnOk result (self.new ≡ self.old ++ (name.now, length) ∷ []) }
    {
        self.lengths.insert(name, length)?;
        Ok(())
    }
}

/// The product, which 64 bits hold.
fn product(period: i32, length: i32) -> i64
    ensures { result ≡ period *ℤ length }
{
    i64::from(period) * i64::from(length)
}

/// The length as the table keeps it. Only in a model that is not well formed is one below 1; and where one is below the
/// least `i32`, a unit that is measured in it is long, or below that too, exactly as if it were that number.
fn kept(length: i64) -> i32
    requires { length ≤ℤ pos 2147483647 }
    ensures { result ≡ floored length }
{
    length.max(i64::from(i32::MIN)) as i32
}

/// Adds a unit, whose own unit is among the earlier ones.
fn add_unit<'a>(
    alloc: Global,
    place: &Place<'_>,
    unit: &'a TimeUnit,
    known: &mut Lengths<'a>,
) -> Result<(), Fail<NameFault>>
    ensures none { OnOk result (unit_at known.old (text_of place.now) unit.now ≡ []) }
    ensures after { OnOk result (known.new ≡ with_unit known.old unit.now) }
    ensures first { IfErr result (FailsFirst (unit_at known.old (text_of place.now) unit.now)) }
{
    let name = unit.name.as_str();
    let is_known = known.of(name).is_some();
    refuse(
        alloc,
        is_known,
        NameKind::Duplicate,
        &Place::Key(place, "name"),
        name,
    )?;
    let measure = unit.unit.as_str();
    let Some(base) = known.of(measure) else {
        return Err(fault(
            alloc,
            NameKind::UnknownUnit,
            &Place::Key(place, "unit"),
            measure,
        ));
    };
    let length = product(unit.period, base);
    let is_long = length > i64::from(i32::MAX);
    refuse(
        alloc,
        is_long,
        NameKind::LongUnit,
        &Place::Key(place, "period"),
        name,
    )?;
    known.add(name, kept(length))?;
    Ok(())
}

/// The time units of the list at this place, with their lengths.
pub fn units<'a, 'p>(
    alloc: Global,
    place: &'p Place<'p>,
    units: &'a [TimeUnit],
) -> Result<Lengths<'a>, Fail<NameFault>>
    ensures none { OnOk result (units_faults (text_of place.now) units.now ≡ []) }
    ensures names { IfOk result (λ table. names_of table ≡ unit_names units.now) }
    ensures first { IfErr result (FailsFirst (units_faults (text_of place.now) units.now)) }
{
    let mut known = Lengths::new(alloc)?;
    for (i, unit) in units.iter().enumerate() {
        add_unit(alloc, &Place::Member(place, i), unit, &mut known)?;
    }
    Ok(known)
}
