//! The next entry of a trace that has something to do with a plan, and the entries behind it.
ghost use Rattle.std.specs.Prelude.{◌≡◌, ◌∷◌, ◌<◌, [], None, Some, IfSome, IsNone, filter_map, length};
ghost use Rattle.mpt_wire.specs.Fits.Plan.{input_of, inputs_of, line_asked};
ghost use Rattle.mpt_wire.specs.Queues.Lanes.{put_on_lane, same_lane as one_lane};
ghost use Rattle.mpt_wire.specs.Walks.Ahead.{same_party as one_party};

use mpt_trace::{Ask, Entry, Input, Item, LaneName, Party, party};

/// The next item that is put on the lane, with the entries behind it.
pub(crate) fn next_put(t: &[Entry], lane: LaneName) -> Option<(&Item, &[Entry])>
    ensures found { IfSome result (λ r. filter_map (put_on_lane lane) t.now ≡ r.0.now ∷ filter_map (put_on_lane lane) r.1.now) }
    ensures shorter { IfSome result (λ r. length r.1.now < length t.now) }
    ensures none { IsNone result → filter_map (put_on_lane lane) t.now ≡ [] }
{
    let mut rest = t;
    while let Some((entry, behind)) = rest.split_first() {
        if let Some(item) = item_put(entry, lane) {
            return Some((item, behind));
        }
        rest = behind;
    }
    None
}

/// The next input of the party, with the entries behind it.
pub(crate) fn next_input(t: &[Entry], of: Party) -> Option<(&Input, &[Entry])>
    ensures found { IfSome result (λ r. inputs_of of t.now ≡ r.0.now ∷ inputs_of of r.1.now) }
    ensures none { IsNone result → inputs_of of t.now ≡ [] }
{
    let mut rest = t;
    while let Some((entry, behind)) = rest.split_first() {
        if let Some(input) = input_given(entry, of) {
            return Some((input, behind));
        }
        rest = behind;
    }
    None
}

/// The next line that the host takes from a submitter, with the entries behind it.
pub(crate) fn next_line(t: &[Entry]) -> Option<(&Input, &[Entry])>
    ensures found { IfSome result (λ r. filter_map line_asked t.now ≡ r.0.now ∷ filter_map line_asked r.1.now) }
    ensures shorter { IfSome result (λ r. length r.1.now < length t.now) }
    ensures none { IsNone result → filter_map line_asked t.now ≡ [] }
{
    let mut rest = t;
    while let Some((entry, behind)) = rest.split_first() {
        if let Some(line) = line_taken(entry) {
            return Some((line, behind));
        }
        rest = behind;
    }
    None
}

// The item that the entry puts on the lane.
fn item_put(entry: &Entry, lane: LaneName) -> Option<&Item>
    ensures found { IfSome result (λ item. put_on_lane lane entry.now ≡ Some item.now) }
    ensures none { IsNone result → put_on_lane lane entry.now ≡ None }
{
    match entry {
        Entry::Put { lane: on, item } => {
            if same_lane(*on, lane) {
                Some(item)
            } else {
                None
            }
        }
        _ => None,
    }
}

// The input, where the entry is one of the party.
fn input_given(entry: &Entry, of: Party) -> Option<&Input>
    ensures found { IfSome result (λ input. input_of of entry.now ≡ Some input.now) }
    ensures none { IsNone result → input_of of entry.now ≡ None }
{
    match entry {
        Entry::Given(input) => {
            if same_party(party(entry), of) {
                Some(input)
            } else {
                None
            }
        }
        _ => None,
    }
}

/// The line that the entry takes from a submitter.
pub(crate) fn line_taken(entry: &Entry) -> Option<&Input>
    ensures found { IfSome result (λ line. line_asked entry.now ≡ Some line.now) }
    ensures none { IsNone result → line_asked entry.now ≡ None }
{
    match entry {
        Entry::Take { lane, item } => match lane {
            LaneName::Ask(_) => match item {
                Item::Ask(ask) => match ask {
                    Ask::Line(line) => Some(line),
                    Ask::Bye => None,
                },
                _ => None,
            },
            _ => None,
        },
        _ => None,
    }
}

// Whether the two lanes are one.
fn same_lane(a: LaneName, b: LaneName) -> bool
    ensures { result ≡ one_lane a b }
{
    match a {
        LaneName::Down => matches!(b, LaneName::Down),
        LaneName::Up => matches!(b, LaneName::Up),
        LaneName::UpOn(i) => matches!(b, LaneName::UpOn(j) if i == j),
        LaneName::Out => matches!(b, LaneName::Out),
        LaneName::Back => matches!(b, LaneName::Back),
        LaneName::Ask(i) => matches!(b, LaneName::Ask(j) if i == j),
        LaneName::Tell(i) => matches!(b, LaneName::Tell(j) if i == j),
    }
}

/// Whether the two parties are one.
pub(crate) fn same_party(a: Party, b: Party) -> bool
    ensures { result ≡ one_party a b }
{
    match a {
        Party::Host => matches!(b, Party::Host),
        Party::Ioc => matches!(b, Party::Ioc),
        Party::Fabric => matches!(b, Party::Fabric),
        Party::Submitter(i) => matches!(b, Party::Submitter(j) if i == j),
    }
}
