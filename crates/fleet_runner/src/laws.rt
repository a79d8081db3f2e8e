//! Laws of the definitions.
ghost use Rattle.std.specs.Prelude.{◌≡◌, IfOk};
ghost use Rattle.fleet_runner.specs.Laws.{OutputsAreOne};
ghost use Rattle.fleet_runner.specs.Examples.{AreAsTold, printed};

use crate::plain_stream;
use run_error::RunError;
use std::alloc::Global;

/// The worked examples hold by the definitions alone.
pub fn examples()
    ensures { AreAsTold }
{
    photo_script::laws::examples();
    photo_script::laws::answers_are_one();
}

/// A script's run has at most one output, whatever forms its reports of knowledge take.
pub fn outputs_are_one()
    ensures { OutputsAreOne }
{
    photo_script::laws::answers_are_one();
}

/// A worked run, from the bytes of a script in memory to the bytes of its reports.
pub fn first_picture(alloc: Global) -> Result<Vec<u8>, RunError>
    ensures { IfOk result (λ output. output.items ≡ printed) }
{
    examples();
    let mut source = "device cam all\nnew cam 7 5 2024-05-01 sun,beach\nlist cam\n".as_bytes();
    let mut output = Vec::new(alloc);
    plain_stream(alloc, &mut source, &mut output)?;
    Ok(output)
}
