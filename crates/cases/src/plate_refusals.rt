// What a plate refuses, in which order, and that a refusal leaves the plate and the output as they were.
use crate::Unbuilt;
use hosts::elementary::Elementary;
use plate::fault::{BeatFault, LayFault, MapFault, ReadFault, ShadowFault, StrikeFault};
use plate::plate::Plate;
use plate::strike::Strike;
use std::test::Fail;
use toom::bit::Bit;
use toom::kind::Kind;
use toom::machine_cell::MachineCell;

fn strike(plane: usize, row: usize, column: usize, byte: u8) -> Strike {
    Strike {
        plane,
        row,
        column,
        byte,
    }
}

#[test]
fn a_bare_plate_refuses_all_but_lay(rt: HostRuntime) {
    let mut cells = [Bit::Zero; 10];
    let mut plate = Plate::new(&mut cells);
    assert_eq!(rt; plate.strike(strike(0, 0, 0, 9)), Err(StrikeFault::Bare));
    assert_eq!(rt; plate.beat(&Elementary { rule: 0 }), Err(BeatFault::Bare));
    for times in [0, u32::MAX] {
        assert_eq!(rt;
            plate.beats(&Elementary { rule: 0 }, times),
            Err(BeatFault::Bare)
        );
    }
    assert_eq!(rt; plate.read(&mut []), Err(ReadFault::Bare));
    assert_eq!(rt; plate.map(&mut []), Err(MapFault::Bare));
    assert_eq!(rt; plate.shadow(&mut []), Err(ShadowFault::Bare));
}

// Each question of lay, with a later one failing too.
#[test]
fn lay_asks_in_order(rt: HostRuntime) {
    let mut cells = [Bit::Zero; 10];
    let mut plate = Plate::new(&mut cells);
    assert_eq!(rt; plate.lay(0, 1, &[2]), Err(LayFault::Planes));
    assert_eq!(rt; plate.lay(4097, 65, &[2]), Err(LayFault::Planes));
    assert_eq!(rt; plate.lay(2, 1, &[2]), Err(LayFault::Side));
    assert_eq!(rt; plate.lay(2, 65, &[2]), Err(LayFault::Side));
    assert_eq!(rt; plate.lay(2, 2, &[2]), Err(LayFault::Tape));
    assert_eq!(rt; plate.lay(2, 2, &[2, 2]), Err(LayFault::Memory));
    assert_eq!(rt; plate.lay(1, 2, &[2]), Err(LayFault::Byte { index: 0 }));
    assert_eq!(rt; plate.read(&mut []), Err(ReadFault::Bare));
    assert_eq!(rt; plate.lay(1, 2, &[1]), Ok(()));
}

#[test]
fn side_64_and_memory_to_the_cell(rt: HostRuntime) {
    let mut cells = [Bit::Zero; 8194];
    let mut plate = Plate::new(&mut cells);
    assert_eq!(rt; plate.lay(1, 64, &[1]), Ok(()));
    let mut short = [Bit::Zero; 8193];
    let mut plate = Plate::new(&mut short);
    assert_eq!(rt; plate.lay(1, 64, &[1]), Err(LayFault::Memory));
}

// The first byte that names no cell, in the middle and at the end; for machine cells every byte names one.
#[test]
fn bytes_of_a_tape(rt: HostRuntime) -> Result<(), Fail> {
    let mut cells = [Bit::Zero; 30];
    let mut plate = Plate::new(&mut cells);
    assert_eq!(rt;
        plate.lay(3, 2, &[0, 2, 3]),
        Err(LayFault::Byte { index: 1 })
    );
    assert_eq!(rt;
        plate.lay(3, 2, &[0, 1, 255]),
        Err(LayFault::Byte { index: 2 })
    );
    let Some(blank) = MachineCell::from_byte(0) else {
        return Err(Fail::new("no cell"));
    };
    let mut cells = [blank; 30];
    let mut plate = Plate::new(&mut cells);
    assert_eq!(rt; plate.lay(3, 2, &[0, 2, 255]), Ok(()));
    Ok(())
}

// Each question of strike, beat, read, map and shadow on a laid plate.
#[test]
fn a_laid_plate_asks_in_order(rt: HostRuntime) -> Result<(), Fail> {
    let mut cells = [Bit::Zero; 36];
    let mut plate = Plate::new(&mut cells);
    plate.lay(2, 2, &[0, 1])?;
    assert_eq!(rt; plate.strike(strike(2, 2, 2, 2)), Err(StrikeFault::Plane));
    assert_eq!(rt; plate.strike(strike(1, 2, 0, 2)), Err(StrikeFault::Place));
    assert_eq!(rt; plate.strike(strike(1, 0, 2, 2)), Err(StrikeFault::Place));
    assert_eq!(rt; plate.strike(strike(1, 1, 1, 2)), Err(StrikeFault::Byte));
    let mut bytes = [7];
    assert_eq!(rt; plate.read(&mut bytes), Err(ReadFault::Output));
    assert_eq!(rt; bytes, [7]);
    let mut counts = [7; 3];
    assert_eq!(rt; plate.map(&mut counts), Err(MapFault::Output));
    assert_eq!(rt; counts, [7; 3]);
    let mut word = [7];
    assert_eq!(rt; plate.shadow(&mut word), Err(ShadowFault::Output));
    assert_eq!(rt; word, [7]);
    let mut rows = [7; 2];
    plate.shadow(&mut rows)?;
    assert_eq!(rt; rows, [0, 0]);
    Ok(())
}

// The last beat is the one that brings the age to 1,048,575.
#[test]
fn the_greatest_age(rt: HostRuntime) -> Result<(), Fail> {
    let mut cells = [Bit::Zero; 10];
    let mut plate = Plate::new(&mut cells);
    plate.lay(1, 2, &[1])?;
    let host = Elementary { rule: 0x80 };
    for _ in 0..1_048_575 {
        plate.beat(&host)?;
    }
    assert_eq!(rt; plate.beat(&host), Err(BeatFault::Age));
    let mut out = [0];
    plate.read(&mut out)?;
    assert_eq!(rt; out, [1]);
    Ok(())
}

// The same in one call: the greatest age leaves no beat, and a call of none.
#[test]
fn the_greatest_age_at_once(rt: HostRuntime) -> Result<(), Fail> {
    let mut cells = [Bit::Zero; 10];
    let mut plate = Plate::new(&mut cells);
    plate.lay(1, 2, &[1])?;
    let host = Elementary { rule: 0x80 };
    assert_eq!(rt; plate.beats(&host, 1_048_576), Err(BeatFault::Age));
    assert_eq!(rt; plate.beats(&host, 1_048_575), Ok(()));
    assert_eq!(rt; plate.beats(&host, 1), Err(BeatFault::Age));
    assert_eq!(rt; plate.beats(&host, 0), Ok(()));
    assert_eq!(rt; plate.standing().map(|laid| laid.age), Some(1_048_575));
    let mut out = [0];
    plate.read(&mut out)?;
    assert_eq!(rt; out, [1]);
    Ok(())
}

#[test]
fn the_most_planes(rt: HostRuntime) {
    let mut cells = [Bit::Zero; 40_960];
    let mut plate = Plate::new(&mut cells);
    assert_eq!(rt; plate.lay(4096, 2, &[1; 4096]), Ok(()));
    assert_eq!(rt; plate.lay(4097, 2, &[1; 4097]), Err(LayFault::Planes));
}
