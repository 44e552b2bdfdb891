//! The input that is made from four numbers, and its text.
ghost use Rattle.std.specs.Prelude.{◌≡◌, IfOk};
ghost use Rattle.commands.specs.Sizes.{AreWithin};
ghost use Rattle.commands.specs.Generating.{IsInputOf, IsMakeOf};

use crate::sizes::Sizes;
use affinity_mask::OutOfMemory;
use std::alloc::Global;
use trace_reader::{Input, make_input, write_input};

/// The text of the input of these numbers. Refused only where memory is out.
pub fn made_text(alloc: Global, sizes: Sizes) -> Result<Vec<u8>, OutOfMemory>
    requires { AreWithin sizes }
    ensures { IfOk result (λ text. IsMakeOf sizes text.items) }
{
    let input = input_of(alloc, sizes)?;
    let text = write_input(alloc, &input)?;
    Ok(text)
}

/// The input of these numbers, in the first version. Refused only where memory is out.
pub fn input_of(alloc: Global, sizes: Sizes) -> Result<Input, OutOfMemory>
    requires { AreWithin sizes }
    ensures generated { IfOk result (λ input. IsInputOf sizes input.set input.events) }
    ensures version { IfOk result (λ input. input.version ≡ 1) }
{
    make_input(
        alloc,
        sizes.number,
        sizes.processors,
        sizes.tasks,
        sizes.events,
    )
}
