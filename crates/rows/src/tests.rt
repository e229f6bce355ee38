// Rows of two at their edges: empty, full, and one item too many.
use super::{Full, Row};

#[test]
fn slices(rt: HostRuntime) {
    let items = [7, 8, 9];
    for (n, fits) in [(0, true), (1, true), (2, true), (3, false)] {
        assert!(rt; n <= items.len());
        let row = Row::<u16, 2>::from_slice(&items[..n]);
        assert_eq!(rt; row.is_ok(), fits);
        if let Ok(row) = row {
            assert_eq!(rt; row.as_slice(), &items[..n]);
            assert_eq!(rt; row.len(), n);
        }
    }
}

#[test]
fn pushes(rt: HostRuntime) -> Result<(), Full> {
    let mut row = Row::<u16, 2>::new();
    assert_eq!(rt; row.last(), None);
    for (item, empty, full) in [(7, true, false), (8, false, false)] {
        assert_eq!(rt; row.is_empty(), empty);
        assert_eq!(rt; row.is_full(), full);
        row.push(item)?;
        assert_eq!(rt; row.last(), Some(item));
    }
    assert!(rt; row.is_full());
    assert_eq!(rt; row.push(9), Err(Full));
    assert_eq!(rt; row.as_slice(), [7, 8].as_slice());
    Ok(())
}

#[test]
fn pops(rt: HostRuntime) -> Result<(), Full> {
    let mut row = Row::<u16, 2>::from_slice(&[7, 8])?;
    let copy = row;
    for item in [Some(8), Some(7), None, None] {
        assert_eq!(rt; row.pop(), item);
    }
    assert!(rt; row.is_empty());
    assert_eq!(rt; copy.as_slice(), [7, 8].as_slice());
    Ok(())
}
