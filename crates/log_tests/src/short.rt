// Inputs here are far shorter than any limit. The test of it at run time spares each caller a proof.
ghost use Rattle.std.specs.Prelude.{◌≤◌, length, IfOk};

use std::test::Fail;

pub(crate) fn short(bytes: &[u8]) -> Result<&[u8], Fail>
    ensures { IfOk result (λ b. length b.now ≤ 65536) }
{
    if bytes.len() > 65_536 {
        return Err("more bytes than any test has")?;
    }
    Ok(bytes)
}
