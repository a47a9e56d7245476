// Both kinds of field, on values worked out by hand and by another program.
use field::{BinaryField, Field, PrimeField};
use std::test::Fail;

#[test]
fn residues_of_7(rt: HostRuntime) -> Result<(), Fail> {
    let f = PrimeField::new(7)?;
    assert_eq!(rt; f.size(), 7);
    assert_eq!(rt; f.sum(5, 4), Some(2));
    assert_eq!(rt; f.opposite(2), Some(5));
    assert_eq!(rt; f.product(3, 5), Some(1));
    assert_eq!(rt; f.inverse(3), Some(5));
    assert_eq!(rt; f.inverse(0), None);
    assert_eq!(rt; f.sum(7, 0), None);
    assert_eq!(rt; f.product(6, 65535), None);
    Ok(())
}

#[test]
fn sixteen_codes(rt: HostRuntime) -> Result<(), Fail> {
    let f = BinaryField::new(16)?;
    assert_eq!(rt; f.size(), 16);
    assert_eq!(rt; f.sum(12, 10), Some(6));
    assert_eq!(rt; f.opposite(9), Some(9));
    assert_eq!(rt; f.product(15, 15), Some(10));
    assert_eq!(rt; f.product(9, 14), Some(7));
    assert_eq!(rt; f.inverse(10), Some(12));
    assert_eq!(rt; f.inverse(0), None);
    assert_eq!(rt; f.inverse(16), None);
    Ok(())
}

#[test]
fn four_and_eight_codes(rt: HostRuntime) -> Result<(), Fail> {
    let four = BinaryField::new(4)?;
    assert_eq!(rt; four.product(3, 3), Some(2));
    assert_eq!(rt; four.inverse(2), Some(3));
    let eight = BinaryField::new(8)?;
    assert_eq!(rt; eight.product(7, 7), Some(3));
    assert_eq!(rt; eight.inverse(6), Some(3));
    Ok(())
}

#[test]
fn unlisted_sizes(rt: HostRuntime) {
    assert!(rt; PrimeField::new(0).is_err());
    assert!(rt; PrimeField::new(1).is_err());
    assert!(rt; PrimeField::new(4).is_err());
    assert!(rt; PrimeField::new(37).is_err());
    assert!(rt; BinaryField::new(2).is_err());
    assert!(rt; BinaryField::new(32).is_err());
}
