//! What running aggregates stand for.

ghost use Rattle.std.specs.Prelude.{◌≡◌, ◌+◌, ◌≤◌, ◌<◌, ◌^◌, ℕ, List, [], ◌∷◌, ◌++◌, length, true};
ghost use Rattle.std.specs.List.{list_all};
ghost use Rattle.std.specs.List.Sorted.{IsPermutation};
ghost use Rattle.pipe_columns.specs.declared.any_value.AnyValue.{AnyValue};
ghost use Rattle.pipe_columns.specs.declared.data_type.DataType.{DataType};
ghost use Rattle.pipe_columns.specs.declared.data_type.DataType.TheVariants as dt;
ghost use Rattle.pipe_columns.specs.declared.place.Place.{Place};
ghost use Rattle.pipe_columns.specs.AnyValue.{fits};
ghost use Rattle.pipe_running.specs.declared.function.AggregateFunction.{AggregateFunction};
ghost use Rattle.pipe_model.specs.Aggregate.{agg, reads_places, values_in};
ghost use Rattle.pipe_model.specs.Kind as kind;
ghost use Rattle.pipe_running.specs.Runs.{after_run, placed};
ghost use Rattle.pipe_running.specs.SameKind.{SameKind};
ghost use Rattle.pipe_columns.specs.Place.{DistinctPlaces};
ghost use Rattle.pipe_running.specs.Stands.{FitTypes, Stands, Suits, given_types, is_mean, is_pair};
ghost use Rattle.pipe_running.specs.States.{after_entries, after_value, alike, fresh, given, joined, kind_of, output_values, seen, takes};

/// Each call keeps what a running aggregate stands for, whatever the order of places, and of the
/// states that are joined.
pub fn what_calls_keep()
    ensures fresh { (f : AggregateFunction) → Stands (fresh f) [] }
    ensures value { (f : AggregateFunction) (entries : List (Place × AnyValue))
        (p : Place) (v : AnyValue) → takes f v ≡ true → Stands f entries
        → Stands (after_value p v f) (entries ++ (p, v) ∷ []) }
    ensures run { (f : AggregateFunction) (entries : List (Place × AnyValue))
        (chunk row : ℕ) (values : List AnyValue)
        → list_all (λ v. takes f v) values ≡ true → Stands f entries
        → Stands (after_run after_value chunk row values f) (entries ++ placed chunk row values) }
    ensures joined { (f g : AggregateFunction) (xs ys : List (Place × AnyValue))
        → alike f g ≡ true → Stands f xs → Stands g ys
        → Stands (joined f g) (xs ++ ys) × Stands (joined f g) (ys ++ xs) }
    ensures order { (f : AggregateFunction) (xs ys : List (Place × AnyValue))
        → IsPermutation xs ys → Stands f xs → Stands f ys }
    ensures seen { (f : AggregateFunction) (entries : List (Place × AnyValue))
        → Stands f entries → seen f ≤ length entries }
{}

/// A running aggregate stays of its kind, whatever it takes.
pub fn what_stays()
    ensures fresh { (f : AggregateFunction) → SameKind f (fresh f) }
    ensures value { (f : AggregateFunction) (p : Place) (v : AnyValue)
        → SameKind f (after_value p v f) }
    ensures joined { (f g : AggregateFunction) → SameKind f (joined f g) }
{}

/// What a running aggregate gives of the list that it stands for.
pub fn what_is_given()
    ensures agg { (f : AggregateFunction) (t : DataType) (entries : List (Place × AnyValue))
        → Suits f t → Stands f entries → (reads_places (kind_of f) ≡ true → DistinctPlaces entries)
        → output_values (given f) ≡ agg (kind_of f) t entries }
    ensures pair { (f : AggregateFunction) → is_pair (given f) ≡ is_mean f }
    ensures fits { (f : AggregateFunction) (t : DataType) (entries : List (Place × AnyValue))
        → Suits f t → Stands f entries → list_all (λ v. fits v t) (values_in entries) ≡ true
        → length entries < 2 ^ 32 → FitTypes (output_values (given f)) (given_types f) }
    ensures texts { (entries : List (Place × AnyValue))
        → agg kind.mean dt.String entries ≡ agg kind.sum dt.String entries }
{}

/// A fresh aggregate that takes entries one by one gives the aggregate of the whole list, and fewer
/// than 2^32 values of its type give values that fit the output columns.
pub fn entries_one_by_one()
    ensures stands { (f : AggregateFunction) (t : DataType) (entries : List (Place × AnyValue))
        → Suits f t → list_all (λ e. takes f e.1) entries ≡ true
        → (reads_places (kind_of f) ≡ true → DistinctPlaces entries)
        → output_values (given (after_entries entries (fresh f))) ≡ agg (kind_of f) t entries }
    ensures fits { (f : AggregateFunction) (t : DataType) (entries : List (Place × AnyValue))
        → Suits f t → list_all (λ e. takes f e.1) entries ≡ true
        → list_all (λ v. fits v t) (values_in entries) ≡ true → length entries < 2 ^ 32
        → FitTypes (output_values (given (after_entries entries (fresh f)))) (given_types f) }
{}

/// States over disjoint places merge in any order, and a fresh one changes nothing of what is
/// given.
pub fn how_states_merge()
    ensures commute { (f g : AggregateFunction) (xs ys : List (Place × AnyValue))
        → alike f g ≡ true → Stands f xs → Stands g ys → DistinctPlaces (xs ++ ys)
        → given (joined f g) ≡ given (joined g f) }
    ensures associate { (f g h : AggregateFunction) (xs ys zs : List (Place × AnyValue))
        → alike f g ≡ true → alike g h ≡ true → Stands f xs → Stands g ys → Stands h zs
        → DistinctPlaces (xs ++ (ys ++ zs))
        → given (joined (joined f g) h) ≡ given (joined f (joined g h)) }
    ensures fresh { (f : AggregateFunction) (entries : List (Place × AnyValue))
        → Stands f entries → DistinctPlaces entries
        → (given (joined f (fresh f)) ≡ given f) × (given (joined (fresh f) f) ≡ given f) }
{}
