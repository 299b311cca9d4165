//! Shapes of JSON values.

ghost use Rattle.std.specs.Prelude.{◌≡◌, ◌<◌, IfSome, option_map};
ghost use Rattle.serde_json.specs.Data.{depth};
ghost use Rattle.serde_json.specs.View.{view};
ghost use Rattle.pipe_query.specs.ExprJson.{part_of, parts_of, three_parts, two_parts};
ghost use Rattle.pipe_query.specs.JsonShapes as spec;
ghost use Rattle.pipe_query.specs.OtherShapes as other;

use serde_json::Value;

/// Whether a value is an object of so many members.
#[tactic(auto, using(crate::proofs::Shapes::member_count_of))]
pub fn has_members(json: &Value, count: usize) -> bool
    ensures { result ≡ spec.has_members count (view json.now) }
{
    match json.as_object() {
        Some(members) => members.len() == count,
        None => false,
    }
}

/// The name and the value of the member of an object that has no other.
#[tactic(auto, using(crate::proofs::Shapes::not_sole, crate::proofs::Shapes::one_member, crate::proofs::PartFacts::sole_deeper))]
pub fn sole_member(json: &Value) -> Option<(&str, &Value)>
    ensures sole { option_map (λ m. (m.0.now, view m.1.now)) result
        ≡ other.sole_of (view json.now) }
    ensures inner { IfSome result (λ m. depth (view m.1.now) < depth (view json.now)) }
{
    let members = json.as_object()?;
    if members.len() != 1 {
        return None;
    }
    let (name, value) = members.first_key_value()?;
    Some((name.as_str(), value))
}

/// The two items of a list of two.
#[tactic(auto, using(crate::proofs::Shapes::not_two, crate::proofs::PartFacts::two_parts_of, crate::proofs::PartFacts::two_deeper))]
pub fn pair(json: &Value) -> Option<(&Value, &Value)>
    ensures items { option_map (λ p. (view p.0.now, view p.1.now)) result
        ≡ spec.pair_of (view json.now) }
    ensures parts { option_map (λ p. (part_of (view p.0.now), part_of (view p.1.now))) result
        ≡ two_parts (parts_of (view json.now)) }
    ensures inner { IfSome result (λ p. (depth (view p.0.now) < depth (view json.now))
        × (depth (view p.1.now) < depth (view json.now))) }
{
    let list = json.as_array()?;
    if list.len() == 2 {
        Some((&list[0], &list[1]))
    } else {
        None
    }
}

/// The three items of a list of three.
#[tactic(auto, using(crate::proofs::Shapes::not_three, crate::proofs::PartFacts::three_parts_of, crate::proofs::PartFacts::three_deeper))]
pub fn triple(json: &Value) -> Option<(&Value, &Value, &Value)>
    ensures items { option_map (λ p. (view p.0.now, view p.1.now, view p.2.now)) result
        ≡ other.triple_of (view json.now) }
    ensures parts { option_map
        (λ p. (part_of (view p.0.now), part_of (view p.1.now), part_of (view p.2.now))) result
        ≡ three_parts (parts_of (view json.now)) }
    ensures inner { IfSome result (λ p. (depth (view p.0.now) < depth (view json.now))
        × (depth (view p.1.now) < depth (view json.now))
        × (depth (view p.2.now) < depth (view json.now))) }
{
    let list = json.as_array()?;
    if list.len() == 3 {
        Some((&list[0], &list[1], &list[2]))
    } else {
        None
    }
}
