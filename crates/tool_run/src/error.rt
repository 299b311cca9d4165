//! Why a run over files ended early.

use pipe_csv::CsvError;
use pipe_run::PipeError;

/// Why a run over files ended early.
#[derive(Debug, Drop)]
pub enum FileRunError {
    /// The files were not read to their end.
    Read(CsvError),
    /// The run was refused.
    Run(PipeError),
}
