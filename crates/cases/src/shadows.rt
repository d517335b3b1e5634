// Shadows: what the vote thins and what it leaves, the row words, the refusals, and the stretches.
use std::test::Fail;
use toom::shadow::Shadow;
use toom::shadow::calls::{OffTorus, TooShort};
use toom::shadow::stretches::Stretch;

fn marked(side: usize, places: &[(usize, usize)]) -> Result<Shadow, OffTorus> {
    let mut shadow = Shadow::empty(side).ok_or(OffTorus)?;
    for (row, column) in places {
        shadow.add(*row, *column)?;
    }
    Ok(shadow)
}

#[test]
fn a_triangle_shrinks_to_its_corner_and_vanishes(rt: HostRuntime) -> Result<(), Fail> {
    let mut shadow = marked(4, &[(0, 0), (0, 1), (1, 0)])?;
    assert_eq!(rt; shadow.count(), 3);
    shadow.vote();
    assert!(rt; shadow == marked(4, &[(0, 0)])?);
    shadow.vote();
    assert!(rt; shadow == marked(4, &[])?);
    assert_eq!(rt; shadow.count(), 0);
    Ok(())
}

#[test]
fn a_full_row_stays(rt: HostRuntime) -> Result<(), Fail> {
    let row = marked(4, &[(0, 0), (0, 1), (0, 2), (0, 3)])?;
    let mut shadow = row;
    for _ in 0..9 {
        shadow.vote();
        assert!(rt; shadow == row);
    }
    Ok(())
}

// A full antidiagonal moves one place a vote, so a shadow need not come to rest.
#[test]
fn an_antidiagonal_moves(rt: HostRuntime) -> Result<(), Fail> {
    let mut shadow = marked(3, &[(0, 2), (1, 1), (2, 0)])?;
    shadow.vote();
    assert!(rt; shadow == marked(3, &[(0, 1), (1, 0), (2, 2)])?);
    Ok(())
}

#[test]
fn column_0_is_the_highest_bit(rt: HostRuntime) -> Result<(), Fail> {
    let shadow = marked(4, &[(2, 0), (2, 1)])?;
    let mut out = [7; 5];
    shadow.write(&mut out)?;
    assert_eq!(rt; out, [0, 0, 0xC000_0000_0000_0000, 0, 7]);
    Ok(())
}

#[test]
fn sides_2_and_64_at_the_edges(rt: HostRuntime) -> Result<(), Fail> {
    for side in [2, 64] {
        let last = side - 1;
        // the corner with its north and its east, all round the edge
        let mut shadow = marked(side, &[(last, last), (0, last), (last, 0)])?;
        assert_eq!(rt; shadow.holds(last, last), Some(true));
        assert_eq!(rt; shadow.holds(last, side), None);
        assert_eq!(rt; shadow.holds(side, last), None);
        shadow.vote();
        assert_eq!(rt; shadow.holds(last, last), Some(true));
    }
    let mut out = [0; 64];
    let wide = marked(64, &[(63, 63), (63, 0)])?;
    wide.write(&mut out)?;
    assert_eq!(rt; out[63], 0x8000_0000_0000_0001);
    Ok(())
}

#[test]
fn refusals_leave_all_as_it_was(rt: HostRuntime) -> Result<(), Fail> {
    for side in [0, 1, 65, usize::MAX] {
        assert!(rt; Shadow::empty(side).is_none());
    }
    let mut shadow = marked(3, &[(1, 2)])?;
    for (row, column) in [(3, 0), (0, 3), (3, 3), (usize::MAX, 0)] {
        assert_eq!(rt; shadow.add(row, column), Err(OffTorus));
    }
    assert!(rt; shadow == marked(3, &[(1, 2)])?);
    let mut out = [9; 2];
    assert_eq!(rt; shadow.write(&mut out), Err(TooShort));
    assert_eq!(rt; out, [9, 9]);
    Ok(())
}

fn stretch(row: usize, column: usize, length: usize) -> Option<Stretch> {
    Some(Stretch {
        row,
        column,
        length,
    })
}

#[test]
fn an_empty_shadow_has_no_stretch(rt: HostRuntime) -> Result<(), Fail> {
    for side in [2, 64] {
        let shadow = marked(side, &[])?;
        assert!(rt; shadow.is_empty());
        let mut stretches = shadow.stretches();
        assert_eq!(rt; stretches.next(), None);
        assert_eq!(rt; stretches.next(), None);
    }
    Ok(())
}

#[test]
fn one_place_is_a_stretch(rt: HostRuntime) -> Result<(), Fail> {
    for side in [2, 64] {
        let last = side - 1;
        let shadow = marked(side, &[(last, last)])?;
        assert!(rt; !shadow.is_empty());
        let mut stretches = shadow.stretches();
        assert_eq!(rt; stretches.next(), stretch(last, last, 1));
        assert_eq!(rt; stretches.next(), None);
    }
    Ok(())
}

#[test]
fn a_full_row_is_one_stretch(rt: HostRuntime) -> Result<(), Fail> {
    let mut shadow = marked(64, &[(6, 0)])?;
    for column in 0..64 {
        shadow.add(5, column)?;
    }
    let mut stretches = shadow.stretches();
    assert_eq!(rt; stretches.next(), stretch(5, 0, 64));
    assert_eq!(rt; stretches.next(), stretch(6, 0, 1));
    assert_eq!(rt; stretches.next(), None);
    Ok(())
}

#[test]
fn a_row_may_have_several(rt: HostRuntime) -> Result<(), Fail> {
    let shadow = marked(8, &[(3, 1), (3, 2), (3, 5), (3, 7), (7, 0)])?;
    let mut stretches = shadow.stretches();
    assert_eq!(rt; stretches.next(), stretch(3, 1, 2));
    assert_eq!(rt; stretches.next(), stretch(3, 5, 1));
    assert_eq!(rt; stretches.next(), stretch(3, 7, 1));
    assert_eq!(rt; stretches.next(), stretch(7, 0, 1));
    assert_eq!(rt; stretches.next(), None);
    Ok(())
}

// No stretch goes on round the torus.
#[test]
fn a_stretch_ends_at_the_edge(rt: HostRuntime) -> Result<(), Fail> {
    let shadow = marked(3, &[(0, 0), (0, 1), (0, 2), (1, 0), (2, 2)])?;
    let mut stretches = shadow.stretches();
    assert_eq!(rt; stretches.next(), stretch(0, 0, 3));
    assert_eq!(rt; stretches.next(), stretch(1, 0, 1));
    assert_eq!(rt; stretches.next(), stretch(2, 2, 1));
    assert_eq!(rt; stretches.next(), None);
    Ok(())
}

#[test]
fn each_stretch_begins_at_a_mark(rt: HostRuntime) -> Result<(), Fail> {
    let shadow = marked(3, &[(0, 0), (0, 1), (2, 2)])?;
    for stretch in shadow.stretches() {
        assert_eq!(rt; shadow.holds(stretch.row, stretch.column), Some(true));
    }
    Ok(())
}
