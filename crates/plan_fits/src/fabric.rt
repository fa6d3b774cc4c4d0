//! Whether the fabric does the lines of a plan that are its own.
ghost use Rattle.std.specs.Prelude.{◌≡◌, ◌↔◌, ◌++◌, ℕ, List, IfSome, IsNone, true};
ghost use Rattle.mpt_trace.specs.declared.input.Input.{Input};
ghost use Rattle.mpt_trace.specs.declared.parties.Party.TheVariants as party;
ghost use Rattle.mpt_wire.specs.Fits.Plan.{inputs_of};

use crate::same::same_input;
use crate::walks::next_input;
use mpt_trace::{Entry, Input, Party};

/// Whether the fabric's inputs are the plan's plugs, and then the lines of its own block.
pub(crate) fn fabric_does(t: &[Entry], plugs: &[Input], block: &[Input]) -> bool
    ensures { (result ≡ true) ↔ (inputs_of party.Fabric t.now ≡ plugs.now ++ block.now) }
{
    match behind_inputs(t, plugs) {
        Some(rest) => are_inputs(rest, block),
        None => false,
    }
}

// Whether the fabric's inputs are these.
fn are_inputs(t: &[Entry], inputs: &[Input]) -> bool
    ensures { (result ≡ true) ↔ (inputs_of party.Fabric t.now ≡ inputs.now) }
{
    let mut rest = t;
    let mut left = inputs;
    while let Some((input, others)) = left.split_first() {
        match next_input(rest, Party::Fabric) {
            Some((given, behind)) => {
                if !same_input(given, input) {
                    return false;
                }
                rest = behind;
            }
            None => return false,
        }
        left = others;
    }
    next_input(rest, Party::Fabric).is_none()
}

// The entries behind these inputs of the fabric. None where its inputs begin with others.
fn behind_inputs<'a>(t: &'a [Entry], inputs: &[Input]) -> Option<&'a [Entry]>
    ensures found { IfSome result (λ rest. (later : List Input) → (inputs_of party.Fabric t.now ≡ inputs.now ++ later) ↔ (inputs_of party.Fabric rest.now ≡ later)) }
    ensures none { IsNone result → (later : List Input) → inputs_of party.Fabric t.now ≡ inputs.now ++ later → ⊥ }
{
    let mut rest = t;
    let mut left = inputs;
    while let Some((input, others)) = left.split_first() {
        match next_input(rest, Party::Fabric) {
            Some((given, behind)) => {
                if !same_input(given, input) {
                    return None;
                }
                rest = behind;
            }
            None => return None,
        }
        left = others;
    }
    Some(rest)
}
