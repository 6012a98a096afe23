//! Links of slots and edges.

use link_cells::Incidence;
use std::test::Fail;

#[test]
fn an_undone_link_leaves_both_lists(rt: HostRuntime) -> Result<(), Fail> {
    let mut links = Incidence::with_capacity(rt.alloc(), 2, 3, 1)?;
    assert!(rt; links.link(0, 2).is_some());
    assert!(rt; links.link(1, 2).is_none());
    links.unlink_last();
    assert!(rt; links.first_on(2).is_none());
    assert!(rt; links.last_of(0).is_none());
    Ok(())
}

#[test]
fn both_lists_are_walked_from_the_latest_link(rt: HostRuntime) -> Result<(), Fail> {
    let mut links = Incidence::with_capacity(rt.alloc(), 2, 3, 4)?;
    let first = links.link(0, 2).unwrap();
    let other = links.link(1, 2).unwrap();
    let last = links.link(0, 1).unwrap();
    assert_eq!(rt; links.last_of(0), Some(1));
    assert_eq!(rt; links.edge_of(last), 1);
    assert_eq!(rt;
        links.cell_before(last).map(|cell| links.edge_of(cell)),
        Some(2)
    );
    assert!(rt; links.cell_before(first).is_none());
    assert_eq!(rt; links.first_on(2).map(|cell| links.slot_of(cell)), Some(1));
    assert_eq!(rt;
        links.next_on(other).map(|cell| links.slot_of(cell)),
        Some(0)
    );
    Ok(())
}
