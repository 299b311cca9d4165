//! Values that are a query, and values that are none.

use pipe_query::query_of;
use serde_json::Value;
use std::alloc::Global;
use std::test::Fail;

/// A value, and how many nodes, keys and aggregates its query has.
type Taken = (&'static str, [usize; 3]);

const TAKEN: [Taken; 7] = [
    (
        r#"{"schema":[["k","Int64"],["v","Int64"]],"keys":["k"],"aggs":[{"alias":[{"sum":"v"},"s"]},{"alias":[{"count":"v"},"c"]}]}"#,
        [7, 1, 2],
    ),
    (
        r#"{"aggs":[],"keys":[],"schema":[["k","Boolean"]],"slice":null}"#,
        [0, 0, 0],
    ),
    // of a doubled member the last stands
    (
        r#"{"keys":7,"keys":["k",{"col":"k"}],"schema":[["k","String"],["k","Date"]],"aggs":[{"len":null}],"slice":[-9223372036854775808,18446744073709551615],"maintain_order":true}"#,
        [3, 2, 1],
    ),
    // each written expression is a node of its own
    (
        r#"{"schema":[["k","UInt8"]],"keys":[{"op":["+","k","k"]},{"op":["and",{"lit":["Boolean",true]},{"lit":["Int8",-9223372036854775808]}]}],"aggs":[]}"#,
        [6, 2, 0],
    ),
    (
        r#"{"schema":[["k","UInt8"]],"keys":[{"if":[{"lit":["String","x"]},{"lit":["Date",null]},"k"]}],"aggs":[{"filter":[{"sort":"k"},{"cast":["k","Boolean"]}]}]}"#,
        [9, 1, 1],
    ),
    (
        r#"{"schema":[["k","UInt8"]],"keys":[],"aggs":[{"first":"k"},{"last":"k"},{"mean":"k"},{"min":"k"},{"max":"k"},{"count_all":"k"},{"median":"k"},{"n_unique":"k"}],"maintain_order":false}"#,
        [16, 0, 8],
    ),
    (
        r#"{"schema":[["k","UInt8"]],"keys":[{"lit":["UInt64",18446744073709551615]}],"aggs":[]}"#,
        [1, 1, 0],
    ),
];

const REFUSED: [&str; 32] = [
    "[]",
    "null",
    "{}",
    // an unknown member, a missing one, and one under another name
    r#"{"schema":[["k","Int64"]],"keys":["k"],"aggs":[],"limit":1}"#,
    r#"{"schema":[["k","Int64"]],"keys":["k"]}"#,
    r#"{"schema":[["k","Int64"]],"keys":["k"],"agg":[]}"#,
    r#"{"schema":[["k","Int64"]],"keys":["k"],"slice":null}"#,
    // the schema
    r#"{"schema":[],"keys":["k"],"aggs":[]}"#,
    r#"{"schema":[["k","Int128"]],"keys":["k"],"aggs":[]}"#,
    r#"{"schema":[["k","int64"]],"keys":["k"],"aggs":[]}"#,
    r#"{"schema":[["k"]],"keys":["k"],"aggs":[]}"#,
    r#"{"schema":[["k","Int64","Int64"]],"keys":["k"],"aggs":[]}"#,
    r#"{"schema":[[1,"Int64"]],"keys":["k"],"aggs":[]}"#,
    // the slice and the order
    r#"{"schema":[["k","Int64"]],"keys":["k"],"aggs":[],"slice":[0]}"#,
    r#"{"schema":[["k","Int64"]],"keys":["k"],"aggs":[],"slice":[0,0,0]}"#,
    r#"{"schema":[["k","Int64"]],"keys":["k"],"aggs":[],"slice":[0,-1]}"#,
    r#"{"schema":[["k","Int64"]],"keys":["k"],"aggs":[],"slice":[9223372036854775808,1]}"#,
    r#"{"schema":[["k","Int64"]],"keys":["k"],"aggs":[],"slice":[0,1.0]}"#,
    r#"{"schema":[["k","Int64"]],"keys":["k"],"aggs":[],"maintain_order":1}"#,
    r#"{"schema":[["k","Int64"]],"keys":["k"],"aggs":[],"maintain_order":null}"#,
    // the expressions
    r#"{"schema":[["k","Int64"]],"keys":"k","aggs":[]}"#,
    r#"{"schema":[["k","Int64"]],"keys":[1],"aggs":[]}"#,
    r#"{"schema":[["k","Int64"]],"keys":[{}],"aggs":[]}"#,
    r#"{"schema":[["k","Int64"]],"keys":[{"col":"k","len":null}],"aggs":[]}"#,
    r#"{"schema":[["k","Int64"]],"keys":[{"column":"k"}],"aggs":[]}"#,
    r#"{"schema":[["k","Int64"]],"keys":[{"lit":["Int64",1.5]}],"aggs":[]}"#,
    r#"{"schema":[["k","Int64"]],"keys":[{"lit":["Int64",-0]}],"aggs":[]}"#,
    r#"{"schema":[["k","Int64"]],"keys":[{"lit":["Int128",null]}],"aggs":[]}"#,
    r#"{"schema":[["k","Int64"]],"keys":[{"op":["^","k","k"]}],"aggs":[]}"#,
    r#"{"schema":[["k","Int64"]],"keys":[{"op":["+","k"]}],"aggs":[]}"#,
    r#"{"schema":[["k","Int64"]],"keys":[{"len":0}],"aggs":[]}"#,
    r#"{"schema":[["k","Int64"]],"keys":["k"],"aggs":[{"alias":["s",{"sum":"k"}]}]}"#,
];

/// How many nodes, keys and aggregates the query of a text has, where it is one.
fn sizes(alloc: Global, text: &str) -> Result<Option<[usize; 3]>, Fail> {
    let Ok(json) = Value::from_str(alloc, text) else {
        return Err("no JSON".into());
    };
    match query_of(alloc, &json)? {
        Some(query) => Ok(Some([query.arena.len(), query.keys.len(), query.aggs.len()])),
        None => Ok(None),
    }
}

#[test]
fn queries_are_taken(rt: HostRuntime) -> Result<(), Fail> {
    for (text, expected) in TAKEN {
        assert_eq!(rt; sizes(rt.alloc(), text)?, Some(expected), "{text}");
    }
    Ok(())
}

#[test]
fn other_values_are_refused(rt: HostRuntime) -> Result<(), Fail> {
    for text in REFUSED {
        assert_eq!(rt; sizes(rt.alloc(), text)?, None, "{text}");
    }
    Ok(())
}
