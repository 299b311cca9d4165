//! Frames joined one below another.

ghost use Rattle.std.specs.Prelude.{◌≡◌, ◌++◌, true, OnErr, OnOk};
ghost use Rattle.pipe_columns.specs.Frame.{all_have_height};
ghost use Rattle.pipe_writers.specs.Waiting.{waiting_rows};
ghost use Rattle.pipe_writers.specs.Kept.{StacksOn, with_frame_below};
ghost use Rattle.pipe_lines.specs.Rows.{frame_rows};

use pipe_columns::DataFrame;
use std::alloc::AllocError;

/// The look at a frame that shows that its columns have its height.
fn recall_height(frame: &DataFrame)
    ensures { all_have_height frame.now.height frame.now.columns ≡ true }
{
    // Called for what its clauses say.
    let _columns = frame.columns();
}

/// Puts a frame below what was gathered. Where memory is wanting, that stays as it was.
pub(crate) fn put_below(
    gathered: &mut Option<DataFrame>,
    frame: DataFrame,
) -> Result<(), AllocError>
    requires { StacksOn gathered.old frame }
    ensures ok { OnOk result (gathered.new ≡ Some (with_frame_below gathered.old frame)) }
    ensures rows { frame_rows (with_frame_below gathered.old frame)
        ≡ waiting_rows gathered.old ++ frame_rows frame }
    ensures err { OnErr result (gathered.new ≡ gathered.old) }
{
    match gathered {
        Some(first) => {
            recall_height(first);
            first.vstack(frame)
        }
        None => {
            *gathered = Some(frame);
            Ok(())
        }
    }
}
