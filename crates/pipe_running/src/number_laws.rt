//! What sums, minimums and maximums of every number type stand for.

ghost use Rattle.std.specs.Prelude.{◌≡◌, List, [], ◌∷◌, ◌++◌, true};
ghost use Rattle.std.specs.List.Sorted.{IsPermutation};
ghost use Rattle.pipe_columns.specs.declared.any_value.AnyValue.{AnyValue};
ghost use Rattle.pipe_columns.specs.declared.any_value.AnyValue.TheVariants as av;
ghost use Rattle.pipe_columns.specs.declared.data_type.DataType.{DataType};
ghost use Rattle.pipe_columns.specs.declared.place.Place.{Place};
ghost use Rattle.pipe_columns.specs.AnyValue.{fits};
ghost use Rattle.pipe_columns.specs.DataType.{sum_type};
ghost use Rattle.pipe_model.specs.Aggregate.{agg};
ghost use Rattle.pipe_model.specs.Kind as kind;
ghost use Rattle.pipe_running.specs.declared.min_max.Direction.{Direction};
ghost use Rattle.pipe_running.specs.declared.min_max.MinMaxAgg.{MinMaxAgg};
ghost use Rattle.pipe_running.specs.declared.sum.SumAgg.{SumAgg};
ghost use Rattle.pipe_running.specs.Stands.{ExtremeStands, SumStands};
ghost use Rattle.pipe_running.specs.States.{kind_of_direction};
ghost use Rattle.pipe_running.specs.Transitions.{empty_extreme, empty_sum, extreme_after, extreme_value, extremes_joined, same_direction, sum_state_after, sums_joined};

use pipe_native::NumericNative;

/// What a sum of a number type stands for: no value, one more, those of another sum, another order;
/// and what it gives.
pub fn what_sums_keep<K: NumericNative>()
    ensures fresh { SumStands K.native (empty_sum K.native) [] }
    ensures value { (a : SumAgg K) (entries : List (Place × AnyValue)) (p : Place) (v : AnyValue)
        → SumStands K.native a entries
        → SumStands K.native (sum_state_after K.native v a) (entries ++ (p, v) ∷ []) }
    ensures joined { (a b : SumAgg K) (xs ys : List (Place × AnyValue))
        → SumStands K.native a xs → SumStands K.native b ys
        → SumStands K.native (sums_joined K.native a b) (xs ++ ys)
        × SumStands K.native (sums_joined K.native a b) (ys ++ xs) }
    ensures order { (a : SumAgg K) (xs ys : List (Place × AnyValue)) → IsPermutation xs ys
        → SumStands K.native a xs → SumStands K.native a ys }
    ensures given { (a : SumAgg K) (t : DataType) (entries : List (Place × AnyValue))
        → sum_type t ≡ K.native.dtype → SumStands K.native a entries
        → av.Int (K.native.number a.sum) ∷ [] ≡ agg kind.sum t entries }
{}

/// What a minimum or maximum of a number type stands for: no value, one more, those of another one
/// in its direction, another order; and what it gives.
pub fn what_extremes_keep<K: NumericNative>()
    ensures fresh { (d : Direction) → ExtremeStands K.native (empty_extreme d) [] }
    ensures value { (a : MinMaxAgg K) (entries : List (Place × AnyValue)) (p : Place)
        (v : AnyValue) → fits v K.native.dtype ≡ true → ExtremeStands K.native a entries
        → ExtremeStands K.native (extreme_after K.native v a) (entries ++ (p, v) ∷ []) }
    ensures joined { (a b : MinMaxAgg K) (xs ys : List (Place × AnyValue))
        → same_direction a.direction b.direction ≡ true
        → ExtremeStands K.native a xs → ExtremeStands K.native b ys
        → ExtremeStands K.native (extremes_joined K.native a b) (xs ++ ys)
        × ExtremeStands K.native (extremes_joined K.native a b) (ys ++ xs) }
    ensures order { (a : MinMaxAgg K) (xs ys : List (Place × AnyValue)) → IsPermutation xs ys
        → ExtremeStands K.native a xs → ExtremeStands K.native a ys }
    ensures given { (a : MinMaxAgg K) (t : DataType) (entries : List (Place × AnyValue))
        → ExtremeStands K.native a entries
        → extreme_value K.native a.extreme ∷ [] ≡ agg (kind_of_direction a.direction) t entries }
{}
