// Machine files: the smallest and the largest, every refusal, and the order of the questions.
use hosts::machine::Machine;
use hosts::machine::fault::MachineFault;

// What is wrong with the file, if anything is.
fn fault(file: &[u8]) -> Option<MachineFault> {
    Machine::read(file).err()
}

#[test]
fn headers_and_lengths(rt: HostRuntime) {
    assert_eq!(rt; fault(&[]), Some(MachineFault::Header));
    assert_eq!(rt; fault(&[0x01]), Some(MachineFault::Header));
    assert_eq!(rt;
        fault(&[0x10, 0x10, 0, 0x10, 0]),
        Some(MachineFault::Header)
    );
    assert_eq!(rt; fault(&[0x11]), Some(MachineFault::Length));
    assert_eq!(rt; fault(&[0x11, 0x10, 0, 0x10]), Some(MachineFault::Length));
    assert_eq!(rt;
        fault(&[0x11, 0x10, 0, 0x10, 0, 0]),
        Some(MachineFault::Length)
    );
    assert_eq!(rt; fault(&[0x11, 0x10, 0, 0x10, 0]), None);
}

// One state and two symbols: each question at the first and at the last entry, and two that fail at once.
#[test]
fn entries_of_the_smallest_machine(rt: HostRuntime) {
    let table = [
        (
            [0x11, 0x00, 0x00, 0x10, 0x00],
            MachineFault::Next { entry: 0 },
        ),
        (
            [0x11, 0x10, 0x00, 0x20, 0x00],
            MachineFault::Next { entry: 1 },
        ),
        (
            [0x11, 0x12, 0x00, 0x10, 0x00],
            MachineFault::Symbol { entry: 0 },
        ),
        (
            [0x11, 0x10, 0x00, 0x12, 0x00],
            MachineFault::Symbol { entry: 1 },
        ),
        (
            [0x11, 0x10, 0xC0, 0x10, 0x00],
            MachineFault::Move { entry: 0 },
        ),
        (
            [0x11, 0x10, 0x00, 0x10, 0xC0],
            MachineFault::Move { entry: 1 },
        ),
        (
            [0x11, 0x10, 0x20, 0x10, 0x00],
            MachineFault::Padding { entry: 0 },
        ),
        (
            [0x11, 0x10, 0x00, 0x10, 0x01],
            MachineFault::Padding { entry: 1 },
        ),
        (
            [0x11, 0x02, 0xC1, 0x10, 0x00],
            MachineFault::Next { entry: 0 },
        ),
        (
            [0x11, 0x12, 0xC1, 0x10, 0x00],
            MachineFault::Symbol { entry: 0 },
        ),
        (
            [0x11, 0x10, 0xC1, 0x10, 0x00],
            MachineFault::Move { entry: 0 },
        ),
        (
            [0x11, 0x10, 0x01, 0x00, 0x00],
            MachineFault::Padding { entry: 0 },
        ),
    ];
    for (file, first) in table {
        assert_eq!(rt; fault(&file), Some(first));
    }
}

// Fifteen states and sixteen symbols, 240 entries, each 80 80: state 8, symbol 0, right.
#[test]
fn the_largest_machine(rt: HostRuntime) {
    let mut file = [0x80; 481];
    file[0] = 0xFF;
    assert_eq!(rt; fault(&file), None);
    file[479] = 0x0F;
    assert_eq!(rt; fault(&file), Some(MachineFault::Next { entry: 239 }));
    file[479] = 0xFF;
    file[480] = 0xC0;
    assert_eq!(rt; fault(&file), Some(MachineFault::Move { entry: 239 }));
    file[480] = 0x3F;
    assert_eq!(rt; fault(&file), Some(MachineFault::Padding { entry: 239 }));
    file[0] = 0xF7;
    assert_eq!(rt; fault(&file), Some(MachineFault::Length));
}

// The last symbol of the largest machine is 15, so that no symbol is too large for it.
#[test]
fn a_symbol_too_large(rt: HostRuntime) {
    let mut file = [0x80; 451];
    file[0] = 0xFE;
    assert_eq!(rt; fault(&file), None);
    file[1] = 0x8F;
    assert_eq!(rt; fault(&file), Some(MachineFault::Symbol { entry: 0 }));
    file[1] = 0x8E;
    file[449] = 0x8F;
    assert_eq!(rt; fault(&file), Some(MachineFault::Symbol { entry: 224 }));
}
