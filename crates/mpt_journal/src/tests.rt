//! Worked merges.
use crate::{Entry, Journal, Party, Stamped, Trace, merge};
use std::alloc::{AllocError, Global};
use std::test::Fail;

// A party with its entries: the stamp and the handle of each `unbind`.
type Row<'a> = (Party, &'a [(u64, u16)]);

// The journals of the rows.
fn journals_of(alloc: Global, rows: &[Row]) -> Result<Vec<Journal>, AllocError> {
    let mut journals = Vec::new(alloc);
    for row in rows {
        let mut journal = Journal::new(alloc, row.0);
        journal.reserve(row.1.len())?;
        for (stamp, handle) in row.1 {
            journal.push(*stamp, Entry::Unbind { handle: *handle })?;
        }
        journals.push(journal)?;
    }
    Ok(journals)
}

// The handles of a trace.
fn handles_of(alloc: Global, trace: &Trace) -> Result<Vec<u16>, AllocError> {
    let mut handles = Vec::new(alloc);
    for entry in trace.as_slice() {
        if let Entry::Unbind { handle } = entry {
            handles.push(*handle)?;
        }
    }
    Ok(handles)
}

#[test]
fn merges_by_stamp_and_party(rt: HostRuntime) -> Result<(), Fail> {
    let table: [(&[Row], &[u16]); 6] = [
        (&[], &[]),
        (&[(Party::Ioc, &[])], &[]),
        // rising stamps, whatever the order of the journals
        (
            &[
                (Party::Host, &[(1, 10), (4, 11), (6, 12)]),
                (Party::Ioc, &[(2, 20), (5, 21)]),
                (Party::Fabric, &[(3, 30), (7, 31)]),
            ],
            &[10, 20, 30, 11, 21, 12, 31],
        ),
        // equal stamps go by the party's number, and entries of a case stand together
        (
            &[
                (Party::Submitter(0), &[(1, 40), (2, 41)]),
                (Party::Fabric, &[(2, 30), (2, 31)]),
                (Party::Host, &[(2, 10), (2, 11), (3, 12)]),
            ],
            &[40, 10, 11, 30, 31, 41, 12],
        ),
        (
            &[
                (Party::Submitter(7), &[(1, 47)]),
                (Party::Submitter(0), &[(1, 40)]),
                (Party::Ioc, &[(1, 20)]),
            ],
            &[20, 40, 47],
        ),
        (
            &[
                (Party::Host, &[]),
                (Party::Ioc, &[(u64::MAX, 20)]),
                (Party::Fabric, &[]),
            ],
            &[20],
        ),
    ];
    for (rows, wanted) in &table {
        let journals = journals_of(rt.alloc(), rows)?;
        let trace = merge(rt.alloc(), &journals)?;
        assert_eq!(rt; trace.len(), wanted.len());
        assert_eq!(rt; handles_of(rt.alloc(), &trace)?.as_slice(), *wanted);
    }
    Ok(())
}

#[test]
fn a_journal_is_read(rt: HostRuntime) -> Result<(), Fail> {
    let mut journal = Journal::new(rt.alloc(), Party::Submitter(3));
    journal.reserve(1)?;
    journal.push(9, Entry::HostUp)?;
    assert_eq!(rt; journal.len(), 1);
    assert!(rt; matches!(journal.party(), Party::Submitter(3)));
    assert!(rt;
        matches!(
            journal.as_slice().first(),
            Some(Stamped {
                stamp: 9,
                party: Party::Submitter(3),
                entry: Entry::HostUp,
            })
        )
    );
    Ok(())
}
