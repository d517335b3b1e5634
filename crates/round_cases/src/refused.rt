// The line of a refusal, and the reply to a round file.
use crate::files::{BEAVER, BEAVER_CELLS, BEAVER_REPORT, SAMPLE, SAMPLE_CELLS, SAMPLE_REPORT};
use crate::outputs::{FILL, ROOM, check_text, check_untouched};
use hosts::elementary::Elementary;
use hosts::machine::Machine;
use hosts::machine::fault::MachineFault;
use plate::fault::{BeatFault, LayFault, MapFault, ReadFault, ShadowFault, StrikeFault};
use reports::fault::ReportFault;
use rounds::entry::Entry;
use rounds::fault::{HostFault, PlayFault, RefusedFault, RoundFault};
use rounds::refusal::Refusal;
use rounds::refused::refused;
use rounds::reply::reply;
use runs::fault::RunFault;
use std::process::Abort;
use std::test::Fail;
use toom::bit::Bit;
use toom::kind::Kind;
use toom::machine_cell::MachineCell;

// The line of the fault, in the shortest output that is enough, and in none that is shorter.
fn check_line<F: Into<Refusal>>(rt: &impl Abort, fault: F, line: &str) -> Result<(), Fail> {
    let refusal = fault.into();
    let mut out = [FILL; 64];
    let len = refused(refusal, &mut out)?;
    check_text(rt, &out, len, line);
    let mut short = [FILL; 63];
    assert_eq!(rt; refused(refusal, &mut short), Err(RefusedFault::Output));
    check_untouched(rt, &short);
    Ok(())
}

// Faults of the calls that change a plate.
#[test]
fn lines_of_calls(rt: HostRuntime) -> Result<(), Fail> {
    check_line(&rt, LayFault::Planes, "refused 1 lay 0\n")?;
    check_line(&rt, LayFault::Byte { index: 3 }, "refused 5 lay 3\n")?;
    check_line(&rt, StrikeFault::Bare, "refused 6 strike 0\n")?;
    check_line(&rt, BeatFault::Age, "refused 10 beat 0\n")?;
    check_line(&rt, RunFault::Number { record: 10 }, "refused 13 run 10\n")
}

// Faults of the calls that write.
#[test]
fn lines_of_outputs(rt: HostRuntime) -> Result<(), Fail> {
    check_line(
        &rt,
        ReadFault::Majority { plane: 4095 },
        "refused 16 read 4095\n",
    )?;
    check_line(&rt, MapFault::Output, "refused 15 map 0\n")?;
    check_line(&rt, ShadowFault::Bare, "refused 6 shadow 0\n")?;
    check_line(&rt, ReportFault::Output, "refused 15 report 0\n")?;
    check_line(&rt, RefusedFault::Output, "refused 15 refused 0\n")
}

// Faults of hosts, round files and plays; a strike in a run has the record's place.
#[test]
fn lines_of_rounds(rt: HostRuntime) -> Result<(), Fail> {
    check_line(
        &rt,
        MachineFault::Padding { entry: 239 },
        "refused 22 host 239\n",
    )?;
    check_line(&rt, HostFault::Rule, "refused 27 host 0\n")?;
    check_line(&rt, RoundFault::Header, "refused 23 round 0\n")?;
    let fault = RunFault::Strike {
        record: 2,
        fault: StrikeFault::Place,
    };
    check_line(&rt, fault, "refused 8 strike 2\n")?;
    check_line(&rt, PlayFault::Run(fault), "refused 8 strike 2\n")?;
    let host = HostFault::Machine(MachineFault::Next { entry: 7 });
    check_line(&rt, PlayFault::Host(host), "refused 19 host 7\n")
}

// Places of 20 digits: the longest there are.
#[test]
fn lines_with_the_longest_place(rt: HostRuntime) -> Result<(), Fail> {
    let place = 18_446_744_073_709_551_615;
    check_line(
        &rt,
        LayFault::Byte { index: place },
        "refused 5 lay 18446744073709551615\n",
    )?;
    let fault = RunFault::Strike {
        record: place,
        fault: StrikeFault::Byte,
    };
    check_line(&rt, fault, "refused 9 strike 18446744073709551615\n")
}

// The reply is this text.
fn check_reply<C: Kind, H: Entry<C>>(
    rt: &impl Abort,
    memory: &mut [C],
    file: &[u8],
    out: &mut [u8],
    text: &str,
) -> Result<(), Fail> {
    let len = reply::<C, H>(memory, file, out)?;
    check_text(rt, out, len, text);
    Ok(())
}

// A refused file; outputs that hold a line but no report, or neither; and a good round. The refusals leave the memory as it was.
#[test]
fn replies_of_bits(rt: HostRuntime) -> Result<(), Fail> {
    let mut cells = [Bit::One; SAMPLE_CELLS];
    let long = &mut [FILL; ROOM];
    check_reply::<Bit, Elementary>(&rt, &mut cells, &SAMPLE[..43], long, "refused 25 round 0\n")?;
    let line = "refused 15 report 0\n";
    check_reply::<Bit, Elementary>(&rt, &mut cells, SAMPLE, &mut [FILL; 64], line)?;
    let mut short = [FILL; 63];
    let reply = reply::<Bit, Elementary>(&mut cells, SAMPLE, &mut short);
    assert_eq!(rt; reply, Err(RefusedFault::Output));
    check_untouched(&rt, &short);
    assert_eq!(rt; cells, [Bit::One; SAMPLE_CELLS]);
    let room = &mut [FILL; ROOM];
    check_reply::<Bit, Elementary>(&rt, &mut cells, SAMPLE, room, SAMPLE_REPORT)
}

#[test]
fn replies_of_machine_cells(rt: HostRuntime) -> Result<(), Fail> {
    let cell = MachineCell::from(0x77);
    let mut cells = [cell; BEAVER_CELLS];
    let long = &mut [FILL; ROOM];
    check_reply::<MachineCell, Machine>(&rt, &mut cells, SAMPLE, long, "refused 24 round 0\n")?;
    let room = &mut [FILL; ROOM];
    check_reply::<MachineCell, Machine>(&rt, &mut cells, BEAVER, room, BEAVER_REPORT)
}
