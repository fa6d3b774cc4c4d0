//! Whether submitters ask the lines of their plan, and the host does what it takes from them.
ghost use Rattle.std.specs.Prelude.{◌≡◌, ◌↔◌, ◌<◌, ◌∷◌, [], None, Some, IfSome, IsNone, filter_map, find, length, true};
ghost use Rattle.mpt_trace.specs.declared.entry.Entry.TheVariants as entry;
ghost use Rattle.mpt_trace.specs.declared.item.Ask.TheVariants as ask;
ghost use Rattle.mpt_trace.specs.declared.item.Item.TheVariants as item;
ghost use Rattle.mpt_trace.specs.declared.lane.LaneName.TheVariants as lane;
ghost use Rattle.mpt_trace.specs.declared.parties.Party.TheVariants as party;
ghost use Rattle.mpt_wire.specs.Fits.Plan.{AsksAreDone, AsksPut, HostDoesAsks, IsDoneNext, asks_of, inputs_of, line_asked};
ghost use Rattle.mpt_wire.specs.Queues.Lanes.{put_on_lane};
ghost use Rattle.mpt_wire.specs.Walks.Ahead.{is_of, next_own};

use crate::same::same_input;
use crate::walks::{line_taken, next_input, next_line, next_put, same_party};
use mpt_script::Inputs;
use mpt_trace::{Ask, Entry, Input, Item, LaneName, Party, party};

/// Whether each submitter puts its lines, in order, on its lane, and then its last word.
pub(crate) fn all_ask(t: &[Entry], submitters: &[Inputs]) -> bool
    requires { length submitters.now < 9 }
    ensures { (result ≡ true) ↔ AsksPut 0 submitters.now t.now }
{
    let mut rest = submitters;
    let mut number = 0;
    while let Some((lines, others)) = rest.split_first() {
        if !asks(t, number, lines.as_slice()) {
            return false;
        }
        number += 1;
        rest = others;
    }
    true
}

// Whether a submitter puts these lines, in order, on its lane, and then its last word.
fn asks(t: &[Entry], number: u8, lines: &[Input]) -> bool
    ensures { (result ≡ true) ↔ (filter_map (put_on_lane (lane.Ask number)) t.now ≡ asks_of lines.now) }
{
    let mut behind = t;
    let mut left = lines;
    while let Some((line, others)) = left.split_first() {
        match next_put(behind, LaneName::Ask(number)) {
            Some((item, rest)) => {
                if !asks_line(item, line) {
                    return false;
                }
                behind = rest;
            }
            None => return false,
        }
        left = others;
    }
    ends_by_bye(behind, number)
}

// Whether nothing but a last word is put on the submitter's lane.
fn ends_by_bye(t: &[Entry], number: u8) -> bool
    ensures { (result ≡ true) ↔ (filter_map (put_on_lane (lane.Ask number)) t.now ≡ item.Ask ask.Bye ∷ []) }
{
    match next_put(t, LaneName::Ask(number)) {
        Some((last, behind)) => is_bye(last) && next_put(behind, LaneName::Ask(number)).is_none(),
        None => false,
    }
}

// Whether the item is this line, asked.
fn asks_line(asked: &Item, line: &Input) -> bool
    ensures { (result ≡ true) ↔ (asked.now ≡ item.Ask (ask.Line line.now)) }
{
    match asked {
        Item::Ask(ask) => match ask {
            Ask::Line(input) => same_input(input, line),
            Ask::Bye => false,
        },
        _ => false,
    }
}

// Whether the item is a last word.
fn is_bye(asked: &Item) -> bool
    ensures { (result ≡ true) ↔ (asked.now ≡ item.Ask ask.Bye) }
{
    match asked {
        Item::Ask(ask) => matches!(ask, Ask::Bye),
        _ => false,
    }
}

/// Whether the host's inputs are its start, and then each line that it took.
pub(crate) fn host_does_asks(t: &[Entry]) -> bool
    ensures { (result ≡ true) ↔ HostDoesAsks t.now }
{
    match next_input(t, Party::Host) {
        Some((first, given)) => matches!(first, Input::Start) && are_lines(given, t),
        None => false,
    }
}

// Whether the host's inputs in these entries are the lines that it takes in those.
fn are_lines(given: &[Entry], asked: &[Entry]) -> bool
    ensures { (result ≡ true) ↔ (inputs_of party.Host given.now ≡ filter_map line_asked asked.now) }
{
    let mut inputs = given;
    let mut lines = asked;
    while let Some((line, others)) = next_line(lines) {
        match next_input(inputs, Party::Host) {
            Some((input, rest)) => {
                if !same_input(input, line) {
                    return false;
                }
                inputs = rest;
            }
            None => return false,
        }
        lines = others;
    }
    next_input(inputs, Party::Host).is_none()
}

/// Whether the host's next entry behind each line that it took is that input.
pub(crate) fn asks_are_done(t: &[Entry]) -> bool
    ensures { (result ≡ true) ↔ AsksAreDone t.now }
{
    let mut rest = t;
    while let Some((entry, behind)) = rest.split_first() {
        if !is_done_next(entry, behind) {
            return false;
        }
        rest = behind;
    }
    true
}

// Whether the line that the entry takes is done by the next entry of its party.
fn is_done_next(entry: &Entry, behind: &[Entry]) -> bool
    ensures { (result ≡ true) ↔ IsDoneNext (line_asked entry.now) (next_own entry.now behind.now) }
{
    match line_taken(entry) {
        Some(line) => match next_of_host(behind) {
            Some(next) => gives(next, line),
            None => false,
        },
        None => true,
    }
}

// The next entry of the host.
fn next_of_host(t: &[Entry]) -> Option<&Entry>
    ensures found { IfSome result (λ e. find (is_of party.Host) t.now ≡ Some e.now) }
    ensures none { IsNone result → find (is_of party.Host) t.now ≡ None }
{
    let mut rest = t;
    while let Some((entry, behind)) = rest.split_first() {
        if same_party(party(entry), Party::Host) {
            return Some(entry);
        }
        rest = behind;
    }
    None
}

// Whether the entry is this input.
fn gives(e: &Entry, line: &Input) -> bool
    ensures { (result ≡ true) ↔ (e.now ≡ entry.Given line.now) }
{
    match e {
        Entry::Given(input) => same_input(input, line),
        _ => false,
    }
}
