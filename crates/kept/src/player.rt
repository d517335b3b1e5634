// The player of kept rounds, each in the cells and the output that the one before has left.
ghost use Rattle.std.specs.Prelude.{◌≤◌, length};
ghost use Rattle.plate.specs.Plates.{members};
ghost use Rattle.reports.specs.ReportCall.{report_bytes};
ghost use Rattle.rounds.specs.Memory.{round_cells};
ghost use Rattle.rounds.specs.PlayCall.{entrant};
ghost use Rattle.kept.specs.Agreement.{Compared, ComparedAs};

use crate::kept::KeptRound;
use hosts::elementary::Elementary;
use hosts::machine::Machine;
use reports::report::REPORT_BYTES;
use rounds::entry::Entry;
use rounds::file_kind::FileKind;
use rounds::reply::reply;
use rounds::round::{ROUND_CELLS, kind};
use std::alloc::{AllocError, Global};
use toom::bit::Bit;
use toom::kind::Kind;
use toom::machine_cell::MachineCell;

// The cells of both kinds and the output suffice for every round.
#[derive(Drop)]
pub struct Player {
    bits: Vec<Bit>,
    machine_cells: Vec<MachineCell>,
    output: Vec<u8>,
    ghost bits_suffice: { round_cells ≤ length bits.items },
    ghost machine_cells_suffice: { round_cells ≤ length machine_cells.items },
    ghost output_suffices: { report_bytes ≤ length output.items },
}

// Whether the reply of this kind of cell is the one that is kept.
fn agrees<C: Kind, H: Entry<C>>(memory: &mut [C], output: &mut [u8], round: &KeptRound) -> bool
    requires enough { round_cells ≤ length memory.old }
    requires room { report_bytes ≤ length output.old }
    ensures { ComparedAs (members C.eq C.byte_of C.cell_of) (entrant H.kind H.questions H.is_in H.Host.meaning) round.now.file.now round.now.reply.now result }
{
    let len = reply::<C, H>(memory, round.file, output).unwrap();
    &output[..len] == round.reply
}

impl Player {
    pub fn new(heap: Global) -> Result<Player, AllocError> {
        Ok(Player {
            bits: vec![in heap; Bit::Zero; ROUND_CELLS]?,
            machine_cells: vec![in heap; MachineCell::from(0); ROUND_CELLS]?,
            output: vec![in heap; 0u8; REPORT_BYTES]?,
        })
    }

    // Whether the reply to the round is the one that is kept. The play of bits refuses a file of a number that is no kind.
    pub fn agrees(&mut self, round: &KeptRound) -> bool
        ensures { Compared round.now.file.now round.now.reply.now result }
    {
        match kind(round.file) {
            FileKind::MachineCells => {
                agrees::<MachineCell, Machine>(&mut self.machine_cells, &mut self.output, round)
            }
            FileKind::Bits | FileKind::Other(_) => {
                agrees::<Bit, Elementary>(&mut self.bits, &mut self.output, round)
            }
        }
    }
}
