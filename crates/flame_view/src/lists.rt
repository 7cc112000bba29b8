//! Lists of picked rows that are used again.

ghost use Rattle.std.specs.Prelude.{◌≡◌, []};

use crate::shown::View;
use flame_rows::Row;
use std::alloc::Global;

/// Lists into which views have picked rows, for those that pick next, so that views made again and again allocate once.
#[derive(Debug, Drop)]
pub struct Lists<'a> {
    spare: Vec<Vec<&'a Row>>,
}

impl<'a> Lists<'a> {
    /// No list yet. It takes no memory.
    pub fn new(alloc: Global) -> Lists<'a> {
        Lists {
            spare: Vec::new(alloc),
        }
    }

    fn any(&mut self) -> Vec<&'a Row> {
        match self.spare.pop() {
            Some(list) => list,
            None => Vec::new(*self.spare.allocator()),
        }
    }

    /// A list without rows: that which was kept last, with its memory, if there is one.
    pub fn empty(&mut self) -> Vec<&'a Row>
        ensures { result.items ≡ [] }
    {
        let mut list = self.any();
        list.clear();
        list
    }

    /// Keeps the list of the rows that the view has picked, if it has one. Where no memory is found to keep it, it is let go.
    pub fn keep(&mut self, view: View<'a>) {
        if let Some(list) = view.into_picked() {
            let _pushed = self.spare.push(list);
        }
    }
}
