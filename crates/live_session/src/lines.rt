//! The lines of a plan, as its parties do them.
ghost use Rattle.std.specs.Prelude.{◌≡◌, ◌++◌, IfOk, OnOk, length};

use mpt_journal::OutOfMemory;
use mpt_script::{Inputs, Plan};
use mpt_trace::Input;
use std::alloc::Global;

/// The lines of the fabric, of which it does the first ones before it takes an item.
#[derive(Drop)]
pub(crate) struct FabricLines {
    pub(crate) all: Vec<Input>,
    pub(crate) first: usize,
}

impl FabricLines {
    /// Copies of the plugs of a plan, which come first, and of the lines of its fabric's block; or OutOfMemory.
    pub(crate) fn new(alloc: Global, plan: &Plan) -> Result<FabricLines, OutOfMemory>
        ensures all { IfOk result (λ lines. lines.all.items ≡ plan.now.plugs ++ plan.now.fabric) }
        ensures first { IfOk result (λ lines. lines.first ≡ length plan.now.plugs) }
    {
        let mut all = copies_of(alloc, plan.plugs())?;
        let first = all.len();
        push_copies(alloc, &mut all, plan.fabric())?;
        Ok(FabricLines { all, first })
    }
}

/// Copies of the inputs; or OutOfMemory.
pub(crate) fn copies_of(alloc: Global, inputs: &Inputs) -> Result<Vec<Input>, OutOfMemory>
    ensures { IfOk result (λ copies. copies.items ≡ inputs.now) }
{
    let mut copies = Vec::new(alloc);
    push_copies(alloc, &mut copies, inputs)?;
    Ok(copies)
}

// Adds copies of the inputs at the end.
fn push_copies(alloc: Global, copies: &mut Vec<Input>, inputs: &Inputs) -> Result<(), OutOfMemory>
    ensures { OnOk result (copies.new.items ≡ copies.old.items ++ inputs.now) }
{
    for input in inputs.as_slice() {
        copies.push(input.copy(alloc)?)?;
    }
    Ok(())
}
