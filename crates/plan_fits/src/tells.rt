//! Whether submitters are told of their own numbers.
ghost use Rattle.std.specs.Prelude.{◌≡◌, ◌↔◌, ◌<◌, ◌∷◌, [], None, Some, IfOk, IfSome, IsNone, filter_map, is_some, length, true};
ghost use Rattle.mpt_trace.specs.declared.item.Item.{Item};
ghost use Rattle.mpt_trace.specs.declared.lane.LaneName.TheVariants as lane;
ghost use Rattle.mpt_wire.specs.Fits.Plan.{TellsPut, has_number, tell_of};
ghost use Rattle.mpt_wire.specs.Queues.Lanes.{put_on_lane};
ghost use Rattle.plan_fits.specs.Told.{HasNumbers};

use crate::same::{same_outcome, same_refusal};
use crate::walks::next_put;
use mpt_script::Inputs;
use mpt_text::OutOfMemory;
use mpt_trace::{Entry, Input, Item, LaneName, Tell};
use std::alloc::Global;
use std::collections::BTreeSet;

/// Whether each answer and each refusal of a submitter's number is put on its lane once, in their order; or OutOfMemory.
pub(crate) fn all_are_told(
    alloc: Global,
    t: &[Entry],
    submitters: &[Inputs],
) -> Result<bool, OutOfMemory>
    requires { length submitters.now < 9 }
    ensures { IfOk result (λ told. (told ≡ true) ↔ TellsPut 0 submitters.now t.now) }
{
    let mut rest = submitters;
    let mut number = 0;
    while let Some((lines, others)) = rest.split_first() {
        let told = submitter_is_told(alloc, t, number, lines)?;
        if !told {
            return Ok(false);
        }
        number += 1;
        rest = others;
    }
    Ok(true)
}

// Whether what is put on the submitter's lane is what it is to be told; or OutOfMemory.
fn submitter_is_told(
    alloc: Global,
    t: &[Entry],
    number: u8,
    lines: &Inputs,
) -> Result<bool, OutOfMemory>
    ensures { IfOk result (λ told. (told ≡ true) ↔ (filter_map (put_on_lane (lane.Tell number)) t.now ≡ filter_map (tell_of lines.now) t.now)) }
{
    let lines = lines.as_slice();
    let numbers = numbers_of(alloc, lines)?;
    Ok(is_told(t, number, lines, &numbers))
}

// The numbers that the lines submit; or OutOfMemory.
fn numbers_of(alloc: Global, lines: &[Input]) -> Result<BTreeSet<u32>, OutOfMemory>
    ensures { IfOk result (λ numbers. HasNumbers lines.now numbers.keys) }
{
    let mut numbers = BTreeSet::new(alloc);
    let mut left = lines;
    while let Some((line, others)) = left.split_first() {
        if let Input::Submit { n, .. } = line {
            match numbers.insert(*n) {
                Ok(_) => {}
                Err(_) => return Err(OutOfMemory),
            }
        }
        left = others;
    }
    Ok(numbers)
}

// Whether what is put on the submitter's lane is what it is to be told.
fn is_told(t: &[Entry], number: u8, lines: &[Input], numbers: &BTreeSet<u32>) -> bool
    requires { HasNumbers lines.now numbers.now.keys }
    ensures { (result ≡ true) ↔ (filter_map (put_on_lane (lane.Tell number)) t.now ≡ filter_map (tell_of lines.now) t.now) }
{
    let mut puts = t;
    let mut told = t;
    while let Some((item, behind)) = next_put(puts, LaneName::Tell(number)) {
        match next_told(told, lines, numbers) {
            Some((entry, rest)) => {
                if !tells(item, entry, lines, numbers) {
                    return false;
                }
                told = rest;
            }
            None => return false,
        }
        puts = behind;
    }
    next_told(told, lines, numbers).is_none()
}

// The next entry of which the submitter of these lines is told, with the entries behind it.
fn next_told<'a>(
    t: &'a [Entry],
    lines: &[Input],
    numbers: &BTreeSet<u32>,
) -> Option<(&'a Entry, &'a [Entry])>
    requires { HasNumbers lines.now numbers.now.keys }
    ensures found { IfSome result (λ r. (item : Item) × (tell_of lines.now r.0.now ≡ Some item) × (filter_map (tell_of lines.now) t.now ≡ item ∷ filter_map (tell_of lines.now) r.1.now)) }
    ensures none { IsNone result → filter_map (tell_of lines.now) t.now ≡ [] }
{
    let mut rest = t;
    while let Some((entry, behind)) = rest.split_first() {
        if is_of_number(entry, lines, numbers) {
            return Some((entry, behind));
        }
        rest = behind;
    }
    None
}

// Whether the submitter of these lines is told of the entry.
fn is_of_number(entry: &Entry, lines: &[Input], numbers: &BTreeSet<u32>) -> bool
    requires { HasNumbers lines.now numbers.now.keys }
    ensures { result ≡ is_some (tell_of lines.now entry.now) }
{
    match entry {
        Entry::Answer { n, .. } | Entry::RefuseSubmit { n, .. } => {
            is_number_of(*n, lines, numbers)
        }
        _ => false,
    }
}

// Whether the lines submit this number.
fn is_number_of(n: u32, lines: &[Input], numbers: &BTreeSet<u32>) -> bool
    requires { HasNumbers lines.now numbers.now.keys }
    ensures { result ≡ has_number lines.now n }
{
    let _of = lines;
    numbers.contains(&n)
}

// Whether the item is what the submitter of these lines is told of the entry.
fn tells(told: &Item, entry: &Entry, lines: &[Input], numbers: &BTreeSet<u32>) -> bool
    requires { HasNumbers lines.now numbers.now.keys }
    ensures { (result ≡ true) ↔ (tell_of lines.now entry.now ≡ Some told.now) }
{
    let Item::Tell(tell) = told else {
        return false;
    };
    match tell {
        Tell::Answer { n, outcome } => match entry {
            Entry::Answer {
                n: of,
                outcome: given,
            } => {
                if *n == *of {
                    is_number_of(*of, lines, numbers) && same_outcome(outcome, given)
                } else {
                    false
                }
            }
            _ => false,
        },
        Tell::RefuseSubmit { n, cause } => match entry {
            Entry::RefuseSubmit {
                n: of,
                cause: given,
            } => {
                if *n == *of {
                    is_number_of(*of, lines, numbers) && same_refusal(*cause, *given)
                } else {
                    false
                }
            }
            _ => false,
        },
    }
}
