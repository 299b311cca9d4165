//! What holds of the values of every expression, as laws.

ghost use Rattle.std.specs.Prelude.{◌≡◌, ℕ, Some, true};
ghost use Rattle.pipe_columns.specs.AnyValue.{fits, HasUtf8};
ghost use Rattle.pipe_columns.specs.Frame.{fields_of, FrameData, HoldsTypes};
ghost use Rattle.pipe_columns.specs.declared.data_type.DataType.{DataType};
ghost use Rattle.pipe_exprs.specs.Literals.{HasUtf8Literals};
ghost use Rattle.pipe_model.specs.Expr.{Expr};
ghost use Rattle.pipe_model.specs.Typing.{type_of};
ghost use Rattle.pipe_model.specs.Value.{value};

/// The values of an expression in the rows of a frame fit its type, and their texts are in UTF-8
/// where those of its literals are.
pub fn values_have_types()
    ensures fit { (e : Expr) (frame : FrameData) (row : ℕ) (t : DataType) → HoldsTypes frame
        → type_of e (fields_of frame.columns) ≡ Some t → fits (value e frame row) t ≡ true }
    ensures utf8 { (e : Expr) (frame : FrameData) (row : ℕ) → HoldsTypes frame
        → HasUtf8Literals e → HasUtf8 (value e frame row) }
{}
