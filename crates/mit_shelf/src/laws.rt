//! Laws of the shelf. A call does nothing: its caller learns what it ensures.
ghost use Rattle.std.specs.Prelude.{◌≡◌, List, ℕ};
ghost use Rattle.std.specs.FinMap as fin;
ghost use Rattle.mit_shelf.specs.Shelf.{Agrees, Kept, kept_bytes, kept_files};

/// The files that a shelf keeps as found have the bytes of each such name and no others, and the shelf agrees with them.
pub fn shelves_agree_with_their_files()
    ensures bytes { (shelf : Kept) (name : List ℕ) → fin.get (kept_files shelf) name ≡ kept_bytes shelf name }
    ensures agree { (shelf : Kept) → Agrees shelf (kept_files shelf) }
{}
