//! A depot that remembers what was put.

use flame_outside::{Depot, Got, PutFail, ReadFail};
use std::alloc::Global;

/// A depot, and the names of the files that calls tried to put there, in order.
#[derive(Drop)]
pub(crate) struct Watched<D: Depot + Drop> {
    depot: D,
    names: Vec<String>,
}

impl<D: Depot + Drop> Watched<D> {
    /// This depot, before the calls.
    pub(crate) fn new(alloc: Global, depot: D) -> Watched<D> {
        Watched {
            depot,
            names: Vec::new(alloc),
        }
    }

    /// The depot.
    pub(crate) fn depot(&self) -> &D {
        &self.depot
    }

    /// The names.
    pub(crate) fn names(&self) -> &[String] {
        self.names.as_slice()
    }
}

impl<D: Depot + Drop> Depot for Watched<D> {
    ghost seen = { λ watched. D.seen watched.depot };

    fn read(&mut self, name: &str, most: usize) -> Result<Got, ReadFail> {
        self.depot.read(name, most)
    }

    fn put(&mut self, name: &str, bytes: &[u8]) -> Result<(), PutFail> {
        let Ok(kept) = String::from_str(*self.names.allocator(), name) else {
            return Err(PutFail::NoMemory);
        };
        if self.names.push(kept).is_err() {
            return Err(PutFail::NoMemory);
        }
        self.depot.put(name, bytes)
    }
}
