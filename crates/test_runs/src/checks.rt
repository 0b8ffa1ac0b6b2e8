// Published check values.
use refusal::Refusal;
use run_check::{check as crc, register};
use std::test::Fail;

// The bits of the bytes "123456789", the lowest of each byte first.
const DIGITS: [u8; 72] = [
    1, 0, 0, 0, 1, 1, 0, 0, 0, 1, 0, 0, 1, 1, 0, 0, 1, 1, 0, 0, 1, 1, 0, 0, 0, 0, 1, 0, 1, 1, 0, 0,
    1, 0, 1, 0, 1, 1, 0, 0, 0, 1, 1, 0, 1, 1, 0, 0, 1, 1, 1, 0, 1, 1, 0, 0, 0, 0, 0, 1, 1, 1, 0, 0,
    1, 0, 0, 1, 1, 1, 0, 0,
];

#[test]
fn digits_have_the_catalogued_check(rt: HostRuntime) {
    assert_eq!(rt; crc(&DIGITS), Ok(0xCBF4_3926));
}

#[test]
fn register_is_the_check_before_inversion(rt: HostRuntime) {
    assert_eq!(rt; register(&DIGITS), Ok(0x340B_C6D9));
}

#[test]
fn a_byte_that_is_no_bit_is_refused_at_its_place(rt: HostRuntime) {
    assert_eq!(rt; crc(&[0, 1, 2, 1, 3]), Err(Refusal::Symbol { place: 2 }));
}

#[test]
fn a_million_bits_and_one_more(rt: HostRuntime) -> Result<(), Fail> {
    let bits = vec![in rt.alloc(); 0u8; 1_000_001]?;
    assert!(rt; bits.len() == 1_000_001);
    assert!(rt; crc(&bits[0..1_000_000]).is_ok());
    assert_eq!(rt; crc(bits.as_slice()), Err(Refusal::Limit));
    Ok(())
}
