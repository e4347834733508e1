//! The message of a batch's program.

ghost use Rattle.std.specs.Prelude.{◌≡◌, ◌++◌, IfOk};
ghost use Rattle.batch_list.specs.Message.{code_line};

use ds_base::{Bytes, NoMemory};
use link_status::{Status, code};
use std::alloc::Global;

/// The message of a program of a batch: its own, and behind it the line of its name and its status' code.
pub fn with_code(
    alloc: Global,
    mut message: Bytes,
    exe: &str,
    status: &Status,
) -> Result<Bytes, NoMemory>
    ensures { IfOk result (λ made. made ≡ message ++ code_line exe.now status.now) }
{
    let code = code(status).to_string(alloc)?;
    message.extend("batch: ".as_bytes())?;
    message.extend(exe.as_bytes())?;
    message.push(b' ')?;
    message.extend(code.as_bytes())?;
    message.push(b'\n')?;
    Ok(message)
}
