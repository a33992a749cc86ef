ghost use Rattle.std.specs.Prelude.{◌≡◌, ◌≢◌, ℕ, ◌≤◌, ◌<◌, ◌⊎◌, Err, Some, None, IfOk, IfSome, IsOk, length, option_map};
ghost use Rattle.zr_io.specs.Contents.{Bytes, HoldsMore, look_up, pairs_of};
ghost use Rattle.zr_io.specs.Faults.{next_count};
ghost use Rattle.zr_io.specs.Memory.{IsListed, Starts, CountsCall, shelf_calls, shelf_faults, shelf_takes, content_of};

use crate::calls::Calls;
use crate::shelf::{Shelf, ShelfError};
use std::alloc::Global;

/// A shelf in memory, which tells its contents. For tests, chosen calls fail.
#[derive(Drop)]
pub struct MemShelf {
    alloc: Global,
    items: Vec<(String, Vec<u8>)>,
    calls: Calls,
}

impl MemShelf {
    /// A shelf with these names and contents; of a repeated name the first item counts. The calls of
    /// `take`, numbered from 0, whose numbers stand in `fails` fail.
    pub fn new(alloc: Global, items: Vec<(String, Vec<u8>)>, fails: Vec<u64>) -> MemShelf
        ensures contents { ⟦<MemShelf as Shelf>⟧.contents result ≡ Some (look_up (pairs_of items.items)) }
        ensures faults { ⟦<MemShelf as Shelf>⟧.faults_of result ≡ 0 }
        ensures takes { ⟦<MemShelf as Shelf>⟧.takes_of result ≡ 0 }
        ensures fails { Starts (shelf_calls result) fails.items }
    {
        MemShelf {
            alloc,
            items,
            calls: Calls::new(fails),
        }
    }
}

// The content of the first item with the name.
fn find<'a>(items: &'a Vec<(String, Vec<u8>)>, name: &str) -> Option<&'a Vec<u8>>
    ensures { option_map (λ v. v.now.items) result ≡ look_up (pairs_of items.now.items) name.now }
{
    for (key, content) in items {
        if key.as_str() == name {
            return Some(content);
        }
    }
    None
}

impl Shelf for MemShelf {
    ghost contents = { λ shelf. Some (content_of shelf) };

    ghost faults_of = { shelf_faults };

    ghost takes_of = { shelf_takes };

    fn take(&mut self, name: &str, limit: usize) -> Result<Vec<u8>, ShelfError>
        ensures within { IfOk result (λ v. length v.items ≤ limit) }
        ensures whole { IfOk result (λ v. content_of self.old name.now ≡ Some v.items) }
        ensures failed { result ≡ Err ShelfError.Failed
            → shelf_faults self.new ≡ next_count (shelf_faults self.old) }
        ensures too_long { result ≡ Err ShelfError.TooLong → HoldsMore (content_of self.old) name.now limit }
        ensures lacks { content_of self.old name.now ≡ None → result ≡ Err ShelfError.Failed }
        ensures stays { content_of self.new ≡ content_of self.old }
        ensures grows { shelf_faults self.old ≤ shelf_faults self.new }
        ensures counts { shelf_takes self.new ≡ next_count (shelf_takes self.old) }

        // When each answer comes, and what it counts.
        ensures listed { IsListed (shelf_calls self.old) → result ≡ Err ShelfError.Failed }
        ensures long { ¬ IsListed (shelf_calls self.old) → HoldsMore (content_of self.old) name.now limit
            → result ≡ Err ShelfError.TooLong }
        ensures fits { (v : Bytes) → ¬ IsListed (shelf_calls self.old) → content_of self.old name.now ≡ Some v
            → length v ≤ limit → IsOk result ⊎ (result ≡ Err ShelfError.NoMemory) }
        ensures quiet { result ≢ Err ShelfError.Failed → shelf_faults self.new ≡ shelf_faults self.old }
        ensures calls { CountsCall (shelf_calls self.old) (shelf_calls self.new) }
    {
        if self.calls.begin() {
            return Err(ShelfError::Failed);
        }
        match find(&self.items, name) {
            None => {
                self.calls.fault();
                Err(ShelfError::Failed)
            }
            Some(content) => if content.len() > limit {
                Err(ShelfError::TooLong)
            } else {
                Vec::from_slice(self.alloc, content.as_slice()).map_err(|_| ShelfError::NoMemory)
            },
        }
    }

    fn faults(&self) -> u64 {
        self.calls.faults()
    }
}
