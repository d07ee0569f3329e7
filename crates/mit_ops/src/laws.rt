//! A law of the types of results. A call does nothing: its caller learns what it ensures.
ghost use Rattle.std.specs.Prelude.{◌≡◌, ◌≤◌, List, Ok, Some};
ghost use Rattle.mit_rows.specs.declared.row.TheConstants.{MAX_COLUMNS};
ghost use Rattle.mit_rows.specs.declared.value.ColType.{ColType};
ghost use Rattle.mit_ops.specs.Results as due;
ghost use Rattle.mit_ops.specs.Results.{AreBags, IsBagType, typed_as, width};
ghost use Rattle.mit_ops.specs.declared.kinds.OpSpec.{OpSpec};
ghost use Rattle.mit_ops.specs.declared.types.VarType.{VarType};

/// What an operator gives over bags, if anything, has again the type of a bag, and so has what is answered as its type.
pub fn bag_types_law()
    ensures results { (spec : OpSpec) (bags : List VarType) (captures : List ColType)
        (type : VarType) → AreBags bags → width spec bags ≤ MAX_COLUMNS
        → due.result spec bags captures ≡ Some type → IsBagType type }
    ensures typed { (spec : OpSpec) (bags : List VarType) (captures : List ColType)
        (type : VarType) → AreBags bags → typed_as spec bags captures ≡ Ok type → IsBagType type }
{}
