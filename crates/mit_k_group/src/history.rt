//! A list of rows that only proofs read. It takes no memory, and its calls do nothing when the program runs.
ghost use Rattle.std.specs.Prelude.{◌≡◌, [], ◌∷◌, ◌++◌, List};
ghost use Rattle.std.specs.Borrow.{ftrue};
ghost use Rattle.mit_rows.specs.Bags.{RowOf};

use mit_rows::Row;
use std::marker::Model;

/// The rows that were fed. What is computed from them is tied to this list by an invariant where the two stand together.
#[derive(Drop)]
pub(crate) struct History {
    pub ghost rows: { List RowOf },
}

// It owns nothing.
impl Model for History {
    ghost also_owns = { λ _. ftrue };
}

impl History {
    /// No rows.
    #[inline]
    pub(crate) fn new() -> History
        ensures { result.rows ≡ [] }
    {
        History {}
    }

    /// These rows and one more.
    #[inline]
    pub(crate) fn and(&self, _row: &Row) -> History
        ensures { result.rows ≡ self.now.rows ++ _row.now ∷ [] }
    {
        History {}
    }
}
