// Wolfram's rules on bits.
use crate::rings::step;
use hosts::elementary::Elementary;
use hosts::host::Host;
use std::test::Fail;
use toom::bit::Bit;
use toom::kind::Kind;

#[test]
fn rule_110_on_eight_bits(rt: HostRuntime) -> Result<(), Fail> {
    let host = Elementary { rule: 110 };
    let mut ring = [0, 0, 0, 0, 0, 0, 0, 1];
    for after in [
        [0, 0, 0, 0, 0, 0, 1, 1],
        [0, 0, 0, 0, 0, 1, 1, 1],
        [0, 0, 0, 0, 1, 1, 0, 1],
    ] {
        ring = step::<Bit, _, 8>(&host, ring)?;
        assert_eq!(rt; ring, after);
    }
    Ok(())
}

// Rule 2^k answers 1 for the three bits of k alone.
#[test]
fn each_bit_of_a_rule(rt: HostRuntime) -> Result<(), Fail> {
    for k in 0..8u8 {
        let host = Elementary { rule: 1 << k };
        for i in 0..8u8 {
            let left = Bit::from_byte(i / 4).ok_or("no bit")?;
            let centre = Bit::from_byte(i / 2 % 2).ok_or("no bit")?;
            let right = Bit::from_byte(i % 2).ok_or("no bit")?;
            assert_eq!(rt; host.answer(left, centre, right).byte() == 1, i == k);
        }
    }
    Ok(())
}
