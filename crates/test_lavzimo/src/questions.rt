//! Questions over files, and their answers.

use crate::asked::File;

/// Two files with their columns in another order, and a query.
pub(crate) const FILES: [File<'static>; 3] = [
    ("a.csv", "k,v\nx,5\ny,\n"),
    ("b.csv", "v,w,k\n7,1,x\n"),
    (
        "q.json",
        r#"{"schema":[["k","String"],["v","Int64"]],"keys":["k"],"aggs":[{"alias":[{"sum":"v"},"s"]}]}"#,
    ),
];

/// The words of a question about the columns of the files.
pub(crate) const COLUMNS: &str = "--by k --count --mean v --partitions 3 a.csv b.csv";

/// Its answer.
pub(crate) const MEANS: &str = "k,count,mean_v\nx,2,6\ny,1,\n";

/// The words of the query over the files.
pub(crate) const QUERY: &str = "--query q.json --format json a.csv b.csv";

/// Its answer.
pub(crate) const SUMS: &str = "{\"k\":\"x\",\"s\":12}\n{\"k\":\"y\",\"s\":0}\n";
