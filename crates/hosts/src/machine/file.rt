// Reading a machine file.
ghost use Rattle.std.specs.Prelude.{◌≡◌, ℕ, ◌+◌, ◌-◌, ◌*◌, ◌<◌, ◌≤◌, length, Some, None, IsNone, MatchResult, slice_index_or};
ghost use Rattle.hosts.specs.MachineFault.{machine_fault};
ghost use Rattle.hosts.specs.MachineFile.{states_in, symbols_in, entry_in, entry_questions, header_questions, machine_questions, slot_in, MachineIn};
ghost use Rattle.hosts.specs.Table.{Sizes};

use crate::entry::{Entry, Motion};
use crate::machine::Machine;
use crate::machine::deeds::deeds_of;
use crate::machine::fault::MachineFault;

// A file whose header is in order, and its numbers of states and symbols.
#[derive(Drop)]
struct MachineFile<'a> {
    bytes: &'a [u8],
    states: u8,
    symbols: u8,
    ghost header: { IsNone (header_questions bytes.now) },
    ghost states_read: { states ≡ states_in bytes.now },
    ghost symbols_read: { symbols ≡ symbols_in bytes.now },
    ghost sized: { Sizes states symbols },
}

impl<'a> MachineFile<'a> {
    // The file, if its header is in order.
    fn open(bytes: &'a [u8]) -> Result<MachineFile<'a>, MachineFault>
        ensures { MatchResult result (λ file. file.bytes.now ≡ bytes.now) (λ e. header_questions bytes.now ≡ Some (machine_fault e)) }
    {
        let [first, ..] = bytes else {
            return Err(MachineFault::Header);
        };
        let states = *first / 16;
        let symbols = *first % 16 + 1;
        if states < 1 || symbols < 2 {
            return Err(MachineFault::Header);
        }
        if bytes.len() != 1 + 2 * states as usize * symbols as usize {
            return Err(MachineFault::Length);
        }
        Ok(MachineFile {
            bytes,
            states,
            symbols,
        })
    }

    // The entry of a state and a symbol, or what is wrong with its two bytes first.
    fn entry(&self, state: u8, symbol: u8) -> Result<Entry, MachineFault>
        requires from_one { 1 ≤ state }
        requires state { state ≤ self.now.states }
        requires symbol { symbol < self.now.symbols }
        ensures { let k = (state - 1) * self.now.symbols + symbol in MatchResult result (λ e. (entry_questions self.now.bytes.now k ≡ None) × (e ≡ entry_in self.now.bytes.now k)) (λ e. entry_questions self.now.bytes.now k ≡ Some (machine_fault e)) }
    {
        let entry = (state as usize - 1) * self.symbols as usize + symbol as usize;
        let high = self.bytes[1 + 2 * entry];
        let low = self.bytes[2 + 2 * entry];
        let next = high / 16;
        let symbol = high % 16;
        if !(1..=self.states).contains(&next) {
            return Err(MachineFault::Next { entry });
        }
        if symbol >= self.symbols {
            return Err(MachineFault::Symbol { entry });
        }
        let motion = Motion::try_from(low / 64).map_err(|_| MachineFault::Move { entry })?;
        if low % 64 != 0 {
            return Err(MachineFault::Padding { entry });
        }
        Ok(Entry {
            next,
            symbol,
            motion,
        })
    }

    // The whole table, or what is wrong with the entries first: they are asked in the order of the file.
    fn table(&self) -> Result<[Option<Entry>; 256], MachineFault>
        ensures { MatchResult result (λ table. (machine_questions self.now.bytes.now ≡ None) × (length table ≡ 256) × ((i : ℕ) → i < 256 → slice_index_or table i None ≡ slot_in self.now.bytes.now i)) (λ e. machine_questions self.now.bytes.now ≡ Some (machine_fault e)) }
    {
        let mut table = [None; 256];
        for state in 1..=self.states {
            for symbol in 0..self.symbols {
                table[16 * state as usize + symbol as usize] = Some(self.entry(state, symbol)?);
            }
        }
        Ok(table)
    }
}

impl Machine {
    // The machine of a file in order, or what is wrong with the file first.
    pub fn read(file: &[u8]) -> Result<Machine, MachineFault>
        ensures { MatchResult result (λ m. (machine_questions file.now ≡ None) × MachineIn file.now m) (λ e. machine_questions file.now ≡ Some (machine_fault e)) }
    {
        let file = MachineFile::open(file)?;
        let table = file.table()?;
        Ok(Machine {
            states: file.states,
            symbols: file.symbols,
            table,
            deeds: deeds_of(&table),
        })
    }
}
