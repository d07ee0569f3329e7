//! Laws of expressions. Each is the contract of a function that does nothing.
ghost use Rattle.std.specs.Prelude.{◌≡◌, List, Some, map};
ghost use Rattle.mit_rows.specs.declared.value.ColType.{ColType};
ghost use Rattle.mit_rows.specs.declared.value.Value.{Value};
ghost use Rattle.mit_expr.specs.Types.{type_in, type_of_value};
ghost use Rattle.mit_expr.specs.Values.{IsTyped, value_in};
ghost use Rattle.mit_expr.specs.declared.expr.Expr.{Expr};

/// An expression that has a type has a value of it, or a fault.
pub fn typing_law()
    ensures { (row captures : List Value) (expr : Expr) (is : ColType) →
        type_in (map type_of_value row) (map type_of_value captures) expr ≡ Some is →
        IsTyped is (value_in row captures expr) }
{}
