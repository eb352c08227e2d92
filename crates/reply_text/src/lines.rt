ghost use Rattle.std.specs.Prelude.{◌≡◌, OnErr, OnOk};
ghost use Rattle.std.specs.Fmt.{AppendsText, with_newline};

use base_text::Bytes;
use std::alloc::{AllocError, Global};
use std::fmt::Display;

/// Room for a line of usual length, in bytes. A longer line takes more.
const LINE: usize = 96;

/// Appends the text of a line and a line feed. It fails only if memory runs out, and then appends nothing.
pub(crate) fn push_line<D: Display + Drop>(
    alloc: Global,
    body: &mut Bytes,
    text: D,
) -> Result<(), AllocError>
    ensures ok { OnOk result (AppendsText body.old body.new (with_newline (D.output text))) }
    ensures err { OnErr result (body.new ≡ body.old) }
{
    let mut line = String::with_capacity(alloc, LINE)?;
    write!(line, "{text}")?;
    body.push_line(line.as_bytes())
}
