//! What the running aggregates of a group stand for, and what they give.

ghost use Rattle.std.specs.Prelude.{◌≡◌, ◌<◌, ◌^◌, All, ℕ, List, [], ◌∷◌, ◌++◌, Option, None, Some, option_map, length};
ghost use Rattle.std.specs.List.{flat_map};
ghost use Rattle.std.specs.List.Sorted.{IsPermutation};
ghost use Rattle.pipe_columns.specs.declared.any_value.AnyValue.{AnyValue};
ghost use Rattle.pipe_columns.specs.declared.place.Place.{Place};
ghost use Rattle.pipe_columns.specs.Place.{DistinctPlaces, first_entry, place_cmp};
ghost use Rattle.pipe_columns.specs.declared.schema.Field.{Field};
ghost use Rattle.pipe_model.specs.Answer.{aggs_from};
ghost use Rattle.pipe_model.specs.Query.{AggTree};
ghost use Rattle.pipe_running.specs.declared.function.AggregateFunction.{AggregateFunction};
ghost use Rattle.pipe_running.specs.GroupStates.{fed_from, FitsFrom, fresh_states, given_all, GroupStands, joined_states, least_with_run, run_from, ServeAll, StatesHold, TakesFrom};
ghost use Rattle.pipe_running.specs.Pick.{nearer, nearest};
ghost use Rattle.pipe_running.specs.Runs.{placed};
ghost use Rattle.pipe_running.specs.Stands.{FitTypes, given_types};

/// What a group keeps of its rows, whatever comes: no row, one more, a run of rows, another group's,
/// another order.
pub fn what_groups_keep()
    ensures fresh { (prototypes : List AggregateFunction)
        → GroupStands prototypes None (fresh_states prototypes) [] }
    ensures row { (prototypes states : List AggregateFunction) (first : Option Place)
        (entries : List (Place × List AnyValue)) (p : Place) (inputs : List AnyValue)
        → TakesFrom 0 prototypes inputs → GroupStands prototypes first states entries
        → GroupStands prototypes (Some (nearer place_cmp p first)) (fed_from p 0 inputs states)
        (entries ++ (p, inputs) ∷ []) }
    ensures run { (prototypes states : List AggregateFunction) (first : Option Place)
        (entries : List (Place × List AnyValue)) (chunk row : ℕ) (rows : List (List AnyValue))
        → All (TakesFrom 0 prototypes) rows → GroupStands prototypes first states entries
        → GroupStands prototypes (least_with_run chunk row rows first)
        (run_from chunk row 0 rows states) (entries ++ placed chunk row rows) }
    ensures joined { (prototypes states others : List AggregateFunction) (first other : Option Place)
        (xs ys : List (Place × List AnyValue))
        → GroupStands prototypes first states xs → GroupStands prototypes other others ys
        → GroupStands prototypes (nearest place_cmp other first) (joined_states states others)
        (xs ++ ys)
        × GroupStands prototypes (nearest place_cmp other first) (joined_states states others)
        (ys ++ xs) }
    ensures order { (prototypes states : List AggregateFunction) (first : Option Place)
        (xs ys : List (Place × List AnyValue)) → IsPermutation xs ys
        → GroupStands prototypes first states xs → GroupStands prototypes first states ys }
    ensures counted { (prototypes states : List AggregateFunction) (first : Option Place)
        (entries : List (Place × List AnyValue)) → GroupStands prototypes first states entries
        → StatesHold (length entries) prototypes states }
{}

/// What a group gives of its rows, and the place that it keeps.
pub fn what_groups_give()
    ensures aggregates { (schema : List Field) (aggs : List AggTree)
        (prototypes states : List AggregateFunction) (first : Option Place)
        (entries : List (Place × List AnyValue)) → ServeAll schema aggs prototypes
        → GroupStands prototypes first states entries → DistinctPlaces entries
        → given_all states ≡ aggs_from 0 schema aggs entries }
    ensures fits { (schema : List Field) (aggs : List AggTree)
        (prototypes states : List AggregateFunction) (first : Option Place)
        (entries : List (Place × List AnyValue)) → ServeAll schema aggs prototypes
        → GroupStands prototypes first states entries
        → All (λ e. FitsFrom 0 schema aggs e.1) entries → length entries < 2 ^ 32
        → FitTypes (given_all states) (flat_map given_types prototypes) }
    ensures first { (prototypes states : List AggregateFunction) (first : Option Place)
        (entries : List (Place × List AnyValue)) → GroupStands prototypes first states entries
        → first ≡ option_map (λ e. e.0) (first_entry entries) }
    ensures takes { (j : ℕ) (schema : List Field) (aggs : List AggTree)
        (prototypes : List AggregateFunction) (inputs : List AnyValue)
        → ServeAll schema aggs prototypes → FitsFrom j schema aggs inputs
        → TakesFrom j prototypes inputs }
{}
