//! Kinds of sinks.

ghost use Rattle.std.specs.Prelude.{◌≡◌};
ghost use Rattle.pipe_plan.specs.Run.{is_generic};

use pipe_plan::SinkKind;

/// Whether what a worker doesn't keep overflows.
pub(crate) fn is_generic(sink: SinkKind) -> bool
    ensures { result ≡ is_generic sink }
{
    match sink {
        SinkKind::Generic => true,
        SinkKind::Primitive | SinkKind::Text => false,
    }
}
