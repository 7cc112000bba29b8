//! Rows that come together.

ghost use Rattle.std.specs.Prelude.{◌≡◌, ◌==◌, [], ◌∷◌, IfOk, OnOk, OnErr};
ghost use Rattle.std.specs.Vec.{vec_len};
ghost use Rattle.flame_rows.specs.Bags.{ascending, merge};
ghost use Rattle.flame_field.specs.KeptGatherings.{bag_of, HasRoom};

use flame_rows::{Bag, NoMemory, Row};
use std::alloc::Global;

/// Rows that come together, in any order. What comes in ascending runs stands there in ascending runs, which are merged when
/// the rows are put in order.
#[derive(Debug, Drop)]
pub struct Gathering {
    /// The rows, as they came.
    pub rows: Vec<Row>,
}

impl Gathering {
    /// No rows.
    pub fn empty(alloc: Global) -> Gathering
        ensures { bag_of result ≡ [] }
    {
        Gathering {
            rows: Vec::new(alloc),
        }
    }

    /// The rows of a bag, which stand in ascending order already.
    pub fn of(bag: Bag) -> Gathering
        ensures bag { bag_of result ≡ bag }
        ensures rows { bag_of result ≡ ascending bag }
    {
        Gathering {
            rows: bag.into_rows(),
        }
    }

    /// How many rows there are.
    pub fn len(&self) -> usize
        ensures { result ≡ vec_len self.now.rows }
    {
        self.rows.len()
    }

    /// Whether there are none.
    pub fn is_empty(&self) -> bool
        ensures { result ≡ (vec_len self.now.rows == 0) }
    {
        self.rows.is_empty()
    }

    /// Adds a row.
    pub fn add(&mut self, row: Row) -> Result<(), NoMemory>
        ensures ok { OnOk result (bag_of self.new ≡ merge (bag_of self.old) (row ∷ [])) }
        ensures err { OnErr result (bag_of self.new ≡ bag_of self.old) }
    {
        self.rows.push(row)?;
        Ok(())
    }

    /// Makes room for so many rows that come together. Where there are none yet no memory is taken, since what comes is
    /// then taken as it stands.
    pub fn make_room(&mut self, rows: usize) -> Result<(), NoMemory>
        ensures same { bag_of self.new ≡ bag_of self.old }
        ensures room { OnOk result (HasRoom rows self.new) }
    {
        if self.rows.is_empty() {
            return Ok(());
        }
        self.rows.reserve(rows)?;
        Ok(())
    }

    /// Adds some rows, for which there is room. Where there were none, their list is taken as it stands.
    pub fn put(&mut self, rows: Vec<Row>)
        requires { HasRoom (vec_len rows) self.old }
        ensures { bag_of self.new ≡ merge (bag_of self.old) (ascending rows.items) }
    {
        if self.rows.is_empty() {
            self.rows = rows;
            return;
        }
        let mut rows = rows;
        let _room = self.rows.append(&mut rows);
    }

    /// The same, for which room is made.
    pub fn add_all(&mut self, rows: Vec<Row>) -> Result<(), NoMemory>
        ensures ok { OnOk result (bag_of self.new ≡ merge (bag_of self.old) (ascending rows.items)) }
        ensures err { OnErr result (bag_of self.new ≡ bag_of self.old) }
    {
        self.make_room(rows.len())?;
        self.put(rows);
        Ok(())
    }

    /// Puts the rows in order, where memory is found. std's sort keeps the runs that ascend already, and merges them.
    pub fn put_in_order(&mut self)
        ensures { bag_of self.new ≡ bag_of self.old }
    {
        let _sorted = self.rows.sort();
    }

    /// The bag of the rows.
    pub fn into_bag(self) -> Result<Bag, NoMemory>
        ensures { IfOk result (λ bag. bag ≡ bag_of self) }
    {
        Bag::of_rows(self.rows)
    }
}
