// What the fields of a case list.
use vectors::{FieldError, bits};

#[test]
fn a_field_of_bits(rt: HostRuntime) {
    let list = bits(rt.alloc(), "01-10");
    assert!(rt; list.is_ok_and(|bits| bits.as_slice() == [0u8, 1, 1, 0].as_slice()));
}

#[test]
fn a_character_that_is_no_bit(rt: HostRuntime) {
    assert_eq!(rt; bits(rt.alloc(), "012").err(), Some(FieldError::Character));
}
