// A ring of cells, given and compared by its bytes, stepped by a host.
use crate::Unbuilt;
use hosts::host::Host;
use toom::kind::Kind;

// The ring after one step.
pub(crate) fn step<C: Kind, H: Host<C>, const N: usize>(
    host: &H,
    ring: [u8; N],
) -> Result<[u8; N], Unbuilt> {
    let mut after = ring;
    // By index: a cell and both its neighbours are needed at once.
    for i in 0..N {
        let left = if i > 0 { i - 1 } else { N - 1 };
        let right = if i + 1 < N { i + 1 } else { 0 };
        let left = C::from_byte(ring[left]).ok_or(Unbuilt)?;
        let centre = C::from_byte(ring[i]).ok_or(Unbuilt)?;
        let right = C::from_byte(ring[right]).ok_or(Unbuilt)?;
        after[i] = host.answer(left, centre, right).byte();
    }
    Ok(after)
}
