//! Worked rows of what a call gives.

ghost use Rattle.std.specs.Prelude.{◌≡◌, codes, None};
ghost use Rattle.memory_answer.specs.Answers.{format_of};
ghost use Rattle.memory_answer.specs.Faults.{fault_line, status_of};
ghost use Rattle.memory_answer.specs.declared.fault.Fault.TheVariants as fault;
ghost use Rattle.pipe_csv.specs.declared.csv_error.CsvError.TheVariants as csv_error;
ghost use Rattle.tool_query.specs.declared.no_query.NoQuery.TheVariants as no_query;

/// A row of another width and a query that is no JSON, as they are told; there are two formats.
pub(crate) fn faults_told()
    ensures width { fault_line (fault.Read (csv_error.Width 1 3)) ≡ codes "file 1 row 3: width\n" }
    ensures refused { fault_line (fault.Query no_query.NotJson) ≡ codes "query refused: json\n" }
    ensures large { status_of (fault.Read csv_error.TooLarge) ≡ 7 }
    ensures formats { format_of 2 ≡ None }
{}
