// The plate: cells that are lent to it, and what it keeps beside them once it is laid.
use crate::laid::Laid;

pub mod calls;
mod moves;

#[derive(Drop)]
pub struct Plate<'a, C> {
    cells: &'a mut [C],
    laid: Option<Laid>,
}
