//! Worked texts, as laws over the definitions: each holds by computation.

ghost use Rattle.std.specs.Prelude.{◌≡◌, ◌∷◌, [], false, true, negsuc, codes, None, Some};
ghost use Rattle.pipe_columns.specs.declared.data_type.DataType.TheVariants as dt;
ghost use Rattle.pipe_columns.specs.declared.any_value.AnyValue.TheVariants as av;
ghost use Rattle.pipe_columns.specs.Frame.{frame_of};
ghost use Rattle.pipe_csv.specs.Fields.{read_field};
ghost use Rattle.pipe_csv.specs.Texts.{csv_text};
ghost use Rattle.pipe_csv.specs.Worked.{int, key_value};

/// Fields at the edges of their types.
pub fn fields_of_types()
    ensures plus { read_field dt.Int64 (codes "+1") ≡ Some (int 1) }
    ensures minus { read_field dt.Int8 (codes "-128") ≡ Some (av.Int (negsuc 127)) }
    ensures minus_zero { read_field dt.UInt8 (codes "-0") ≡ Some (int 0) }
    ensures zeros { read_field dt.UInt8 (codes "007") ≡ Some (int 7) }
    ensures beyond { read_field dt.Int8 (codes "128") ≡ None }
    ensures sign_alone { read_field dt.Int8 (codes "-") ≡ None }
    ensures space { read_field dt.Int8 (codes "1 ") ≡ None }
    ensures empty { read_field dt.Boolean [] ≡ Some av.Null }
    ensures truth { read_field dt.Boolean (codes "true") ≡ Some (av.Boolean true) }
    ensures other_truth { read_field dt.Boolean (codes "True") ≡ None }
{}

/// A frame's text.
pub fn text_of_a_frame()
    ensures { csv_text (frame_of key_value
        ((int 1 ∷ int 12 ∷ []) ∷ (av.Null ∷ av.Int (negsuc 5) ∷ []) ∷ []))
        ≡ codes "k,v\n1,12\n,-6\n" }
{}
