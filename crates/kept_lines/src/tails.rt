// The ends of lines.
ghost use Rattle.std.specs.Prelude.{◌≡◌, ◌++◌, OnOk, decimal};
ghost use Rattle.otlp_json.specs.OutputLine.{line_tail};

use itoa::Buffer;
use std::alloc::AllocError;

/// Appends a text and a number behind it.
fn append_number(text: &[u8], number: u64, out: &mut Vec<u8>) -> Result<(), AllocError>
    ensures { OnOk result (out.new.items ≡ out.old.items ++ text.now ++ decimal number) }
{
    let mut buffer = Buffer::new();
    out.extend_from_slice(text)?;
    out.extend_from_slice(buffer.format(number).as_bytes())?;
    Ok(())
}

/// Appends how a line with this number of the file with this id ends.
pub(crate) fn append_tail(id: u32, number: u64, out: &mut Vec<u8>) -> Result<(), AllocError>
    ensures { OnOk result (out.new.items ≡ out.old.items ++ line_tail id number) }
{
    let file = u64::from(id);
    append_number(b"\"agent.file\",\"value\":{\"intValue\":\"", file, out)?;
    append_number(
        b"\"}},{\"key\":\"agent.line\",\"value\":{\"intValue\":\"",
        number,
        out,
    )?;
    out.extend_from_slice(b"\"}}],\"name\":\"stanza_agent\"}}]}]}\n")?;
    Ok(())
}
