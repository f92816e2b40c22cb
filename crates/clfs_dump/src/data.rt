// The data of a record at the end of its line.
ghost use Rattle.std.specs.Prelude.{◌≡◌, ◌++◌, OnOk};
ghost use Rattle.std.specs.List.{flat_map};
ghost use Rattle.clfs_dump.specs.Lines.{escaped, quoted, data_part};

use crate::selection::DataForm;
use clfs_lsn::Bytes;
use clfs_text::push_data;
use std::alloc::AllocError;

fn push_escaped(byte: u8, out: &mut Bytes) -> Result<(), AllocError>
    ensures { OnOk result (out.new ≡ out.old ++ escaped byte) }
{
    if byte == b'"' || byte == b'\\' {
        out.extend_from_slice(&[b'\\', byte])
    } else if 32 <= byte && byte <= 126 {
        out.extend_from_slice(&[byte])
    } else {
        out.extend_from_slice(b"\\x")?;
        push_data(&[byte], out)
    }
}

fn push_all_escaped(bytes: &[u8], out: &mut Bytes) -> Result<(), AllocError>
    ensures { OnOk result (out.new ≡ out.old ++ flat_map escaped bytes.now) }
{
    for byte in bytes {
        push_escaped(*byte, out)?;
    }
    Ok(())
}

fn push_quoted(bytes: &[u8], out: &mut Bytes) -> Result<(), AllocError>
    ensures { OnOk result (out.new ≡ out.old ++ quoted bytes.now) }
{
    out.extend_from_slice(b"\"")?;
    push_all_escaped(bytes, out)?;
    out.extend_from_slice(b"\"")
}

/// Adds data as they are asked for, after a space.
pub(crate) fn push_part(form: DataForm, bytes: &[u8], out: &mut Bytes) -> Result<(), AllocError>
    ensures { OnOk result (out.new ≡ out.old ++ data_part form bytes.now) }
{
    match form {
        DataForm::Hex => {
            out.extend_from_slice(b" ")?;
            push_data(bytes, out)
        }
        DataForm::Text => {
            out.extend_from_slice(b" ")?;
            push_quoted(bytes, out)
        }
        DataForm::Nothing => Ok(()),
    }
}
