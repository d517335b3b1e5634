// What a run refuses, in which order, and that a refusal leaves the plate as it was.
use crate::Unbuilt;
use crate::look::{CELLS, PLANES, SIDE, check_same, look_at};
use crate::records::{BEAVER, script, strike, wound};
use hosts::elementary::Elementary;
use hosts::host::Host;
use hosts::machine::Machine;
use plate::fault::StrikeFault;
use plate::plate::Plate;
use runs::checks::check_run;
use runs::fault::RunFault;
use runs::run::run;
use std::process::Abort;
use std::test::Fail;
use toom::bit::Bit;
use toom::kind::Kind;
use toom::machine_cell::MachineCell;

const RULE: Elementary = Elementary { rule: 110 };

// Three records that a run of three beats accepts.
const GOOD: [u64; 3] = [
    0x0000_1000_0000_0000, // 1, 0, 0, 0, 0
    0x0000_2001_0810_0000, // 2, 1, 2, 1, 0
    0x0000_3002_0C30_1000, // 3, 2, 3, 3, 1
];

// Lays, beats and strikes the plate once, so that a refusal could be seen to alter something.
fn wear<C: Kind, H: Host<C>>(plate: &mut Plate<'_, C>, host: &H, tape: &[u8]) -> Result<(), Fail> {
    plate.lay(PLANES, SIDE, tape)?;
    plate.beat(host)?;
    plate.strike(wound(1, 2, 3, 0))?;
    Ok(())
}

// The run answers with this fault, as the questions without a plate do, and the plate is as it was.
fn refuse<C: Kind, H: Host<C>>(
    rt: &impl Abort,
    plate: &mut Plate<'_, C>,
    host: &H,
    script: &[u8],
    beats: u32,
    fault: RunFault,
) {
    let before = look_at(plate);
    assert_eq!(rt; run(plate, host, script, beats), Err(fault));
    assert_eq!(rt; look_at(plate), before);
    if let Some(age) = before.age {
        assert_eq!(rt;
            check_run::<C>(PLANES, SIDE, age, beats, script),
            Err(fault)
        );
    }
}

// The run of three beats is refused for this record, which stands at this index of the good script.
fn refuse_record<C: Kind, H: Host<C>>(
    rt: &impl Abort,
    plate: &mut Plate<'_, C>,
    host: &H,
    index: usize,
    record: u64,
    fault: RunFault,
) {
    let mut words = GOOD;
    if index < 3 {
        words[index] = record;
    }
    refuse(rt, plate, host, &script(words), 3, fault);
}

// Each refusal of a record, at each of three records.
fn refuse_each<C: Kind, H: Host<C>>(rt: &impl Abort, plate: &mut Plate<'_, C>, host: &H) {
    for index in 0..3usize {
        let number = index as u32 + 1;
        let plane = RunFault::Strike {
            record: index,
            fault: StrikeFault::Plane,
        };
        let place = RunFault::Strike {
            record: index,
            fault: StrikeFault::Place,
        };
        let table = [
            (
                strike(number, 0, 0, 0, 0) | 1,
                RunFault::Padding { record: index },
            ),
            (
                strike(number, 0, 0, 0, 0) | 0x800,
                RunFault::Padding { record: index },
            ),
            (strike(4, 0, 0, 0, 0), RunFault::Number { record: index }),
            (
                strike(1_048_575, 0, 0, 0, 0),
                RunFault::Number { record: index },
            ),
            (strike(number, 3, 0, 0, 0), plane),
            (strike(number, 4095, 0, 0, 0), plane),
            (strike(number, 0, 4, 0, 0), place),
            (strike(number, 0, 0, 4, 0), place),
            (strike(number, 0, 63, 63, 0), place),
        ];
        for (record, fault) in table {
            refuse_record(rt, plate, host, index, record, fault);
        }
    }
    // No number is below that of a record before the first.
    for index in 1..3usize {
        let number = index as u32 - 1;
        refuse_record(
            rt,
            plate,
            host,
            index,
            strike(number, 0, 0, 0, 0),
            RunFault::Order { record: index },
        );
    }
}

// The record at this index is refused, whatever is wrong with the one after it.
fn refuse_before<C: Kind, H: Host<C>>(
    rt: &impl Abort,
    plate: &mut Plate<'_, C>,
    host: &H,
    index: usize,
    record: u64,
    fault: RunFault,
) {
    refuse_record(rt, plate, host, index, record, fault);
    let mut words = GOOD;
    if index < 2 {
        words[index] = record;
        for next in [
            GOOD[2] | 1,
            strike(4, 0, 0, 0, 0),
            strike(0, 0, 0, 0, 0),
            strike(3, 3, 0, 0, 0),
        ] {
            words[index + 1] = next;
            refuse(rt, plate, host, &script(words), 3, fault);
        }
    }
}

// A record that fails several questions is refused for the first of them, and of two bad records the earlier is.
fn refuse_in_order<C: Kind, H: Host<C>>(rt: &impl Abort, plate: &mut Plate<'_, C>, host: &H) {
    for index in 0..3usize {
        let number = index as u32 + 1;
        let plane = RunFault::Strike {
            record: index,
            fault: StrikeFault::Plane,
        };
        let place = RunFault::Strike {
            record: index,
            fault: StrikeFault::Place,
        };
        let table = [
            (
                strike(4, 3, 4, 4, 2) | 1,
                RunFault::Padding { record: index },
            ),
            (strike(4, 3, 4, 4, 2), RunFault::Number { record: index }),
            (strike(number, 3, 4, 4, 2), plane),
            (strike(number, 2, 4, 3, 2), place),
            (strike(number, 2, 3, 4, 2), place),
        ];
        for (record, fault) in table {
            refuse_before(rt, plate, host, index, record, fault);
        }
    }
    for index in 1..3usize {
        let early = strike(index as u32 - 1, 3, 4, 4, 2);
        let padding = RunFault::Padding { record: index };
        refuse_before(rt, plate, host, index, early | 1, padding);
        let order = RunFault::Order { record: index };
        refuse_before(rt, plate, host, index, early, order);
    }
}

#[test]
fn records_of_bits(rt: HostRuntime) -> Result<(), Fail> {
    let mut cells = [Bit::Zero; CELLS];
    let mut plate = Plate::new(&mut cells);
    wear(&mut plate, &RULE, &[0, 1, 1])?;
    refuse_each(&rt, &mut plate, &RULE);
    refuse_in_order(&rt, &mut plate, &RULE);
    assert_eq!(rt; run(&mut plate, &RULE, &script(GOOD), 3), Ok(()));
    for index in 0..3usize {
        let fault = RunFault::Strike {
            record: index,
            fault: StrikeFault::Byte,
        };
        let number = index as u32 + 1;
        for byte in [2, 255] {
            let record = strike(number, 0, 3, 3, byte);
            refuse_record(&rt, &mut plate, &RULE, index, record, fault);
        }
    }
    // The last question of a record comes before the first of the next.
    let byte = RunFault::Strike {
        record: 1,
        fault: StrikeFault::Byte,
    };
    let words = [GOOD[0], strike(2, 0, 0, 0, 2), GOOD[2] | 1];
    refuse(&rt, &mut plate, &RULE, &script(words), 3, byte);
    Ok(())
}

// Every byte names a machine cell, so the last question never fails.
#[test]
fn records_of_machine_cells(rt: HostRuntime) -> Result<(), Fail> {
    let host = Machine::read(&BEAVER)?;
    let blank = MachineCell::from_byte(0).ok_or(Unbuilt)?;
    let mut cells = [blank; CELLS];
    let mut plate = Plate::new(&mut cells);
    wear(&mut plate, &host, &[0, 0x10, 0])?;
    refuse_each(&rt, &mut plate, &host);
    refuse_in_order(&rt, &mut plate, &host);
    assert_eq!(rt; run(&mut plate, &host, &script(GOOD), 3), Ok(()));
    for byte in 0..=255u8 {
        let script = strike(0, 2, 3, 3, byte).to_be_bytes();
        assert_eq!(rt; run(&mut plate, &host, &script, 0), Ok(()));
    }
    Ok(())
}

// Every cell of a bare plate stays, and every cell of a laid one. Both plates have the same cells at first.
fn keep_every_cell<C: Kind, H: Host<C>>(
    rt: &impl Abort,
    cells: &mut [C],
    twin: &mut [C],
    host: &H,
    tape: &[u8],
) -> Result<(), Fail> {
    let mut plate = Plate::new(cells);
    refuse(rt, &mut plate, host, &script(GOOD), 3, RunFault::Bare);
    check_same(rt, cells, twin);
    let mut plate = Plate::new(cells);
    wear(&mut plate, host, tape)?;
    refuse_each(rt, &mut plate, host);
    refuse_in_order(rt, &mut plate, host);
    let mut plate = Plate::new(twin);
    wear(&mut plate, host, tape)?;
    check_same(rt, cells, twin);
    Ok(())
}

#[test]
fn refusals_keep_every_cell(rt: HostRuntime) -> Result<(), Fail> {
    let (cells, twin) = (&mut [Bit::One; CELLS], &mut [Bit::One; CELLS]);
    keep_every_cell(&rt, cells, twin, &RULE, &[0, 1, 1])?;
    let host = Machine::read(&BEAVER)?;
    let cell = MachineCell::from_byte(0x77).ok_or(Unbuilt)?;
    let (cells, twin) = (&mut [cell; CELLS], &mut [cell; CELLS]);
    keep_every_cell(&rt, cells, twin, &host, &[0, 0x10, 0])
}

// The questions before the records: bare, then age, then script. The first record fails too.
fn refuse_whole<C: Kind, H: Host<C>>(rt: &impl Abort, cells: &mut [C], host: &H, tape: &[u8]) {
    let bad = [0xFF; 16];
    let mut plate = Plate::new(cells);
    for (length, beats) in [(0, 0), (16, 0), (7, 0), (16, 1_048_576), (7, 1_048_576)] {
        refuse(rt, &mut plate, host, &bad[..length], beats, RunFault::Bare);
    }
    assert!(rt; plate.standing().is_none());
    assert_eq!(rt; plate.lay(PLANES, SIDE, tape), Ok(()));
    for (length, beats) in [
        (0, 1_048_576),
        (7, 1_048_576),
        (16, 1_048_576),
        (0, 4_294_967_295),
    ] {
        refuse(rt, &mut plate, host, &bad[..length], beats, RunFault::Age);
    }
    for length in [1, 7, 9, 15] {
        refuse(
            rt,
            &mut plate,
            host,
            &bad[..length],
            1_048_575,
            RunFault::Script,
        );
    }
    let padding = RunFault::Padding { record: 0 };
    refuse(rt, &mut plate, host, &bad, 1_048_575, padding);
    assert_eq!(rt; plate.beat(host), Ok(()));
    for length in [0, 7, 16] {
        refuse(
            rt,
            &mut plate,
            host,
            &bad[..length],
            1_048_575,
            RunFault::Age,
        );
    }
    refuse(rt, &mut plate, host, &bad, 1_048_574, padding);
}

#[test]
fn whole_runs_of_bits(rt: HostRuntime) {
    refuse_whole(&rt, &mut [Bit::Zero; CELLS], &RULE, &[0, 1, 1]);
}

#[test]
fn whole_runs_of_machine_cells(rt: HostRuntime) -> Result<(), Fail> {
    let host = Machine::read(&BEAVER)?;
    let blank = MachineCell::from_byte(0).ok_or(Unbuilt)?;
    refuse_whole(&rt, &mut [blank; CELLS], &host, &[0, 0x10, 0]);
    Ok(())
}

// Records of zeros are accepted: each strikes the first place of plane 0. A script has 8,191 records at most.
fn longest<C: Kind, H: Host<C>>(
    rt: &impl Abort,
    cells: &mut [C],
    host: &H,
    tape: &[u8],
) -> Result<(), Fail> {
    let zeros = [0; 65_536];
    let mut plate = Plate::new(cells);
    wear(&mut plate, host, tape)?;
    for length in [65_521, 65_527, 65_529, 65_535, 65_536] {
        let script = &zeros[..length];
        refuse(rt, &mut plate, host, script, 0, RunFault::Script);
    }
    assert_eq!(rt; run(&mut plate, host, &zeros[..65_528], 0), Ok(()));
    Ok(())
}

#[test]
fn the_longest_script(rt: HostRuntime) -> Result<(), Fail> {
    longest(&rt, &mut [Bit::Zero; CELLS], &RULE, &[0, 1, 1])?;
    let host = Machine::read(&BEAVER)?;
    let blank = MachineCell::from_byte(0).ok_or(Unbuilt)?;
    longest(&rt, &mut [blank; CELLS], &host, &[0, 0x10, 0])
}

// No plate is older than the limit, but the questions without a plate take any age.
#[test]
fn ages_past_the_limit(rt: HostRuntime) {
    for (age, beats) in [
        (1_048_576, 0),
        (1_048_575, 1),
        (4_294_967_295, 4_294_967_295),
    ] {
        assert_eq!(rt; check_run::<Bit>(1, 2, age, beats, &[]), Err(RunFault::Age));
    }
    assert_eq!(rt; check_run::<Bit>(1, 2, 1_048_575, 0, &[]), Ok(()));
}
