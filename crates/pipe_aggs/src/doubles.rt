//! Fields of one name.

ghost use Rattle.std.specs.Prelude.{◌≡◌};
ghost use Rattle.std.specs.List.{list_any};
ghost use Rattle.std.specs.Str.{bytes_eq};
ghost use Rattle.pipe_aggs.specs.Faults.{field_names, has_double};

use pipe_columns::Field;

/// Whether a later field has the name of the first.
fn is_doubled(first: &Field, later: &[Field]) -> bool
    ensures { result ≡ list_any (λ f. bytes_eq f.name first.now.name) later.now }
{
    later.iter().any(|field| field.name == first.name)
}

/// Whether two fields have one name.
pub(crate) fn has_double(fields: &[Field]) -> bool
    ensures { result ≡ has_double (field_names fields.now) }
{
    let mut rest = fields;
    while let Some((first, later)) = rest.split_first() {
        if is_doubled(first, later) {
            return true;
        }
        rest = later;
    }
    false
}
