// The fibres of a network before its first turn.
ghost use Rattle.std.specs.Prelude.{◌≡◌, ◌<◌, IfOk, Some, length, map, slice_get};
ghost use Rattle.std.specs.List.{Contains};
ghost use Rattle.network_laws.specs.Networks.{FibreEnds};
ghost use Rattle.network_carry.specs.Fillings.{IsNear, new_filling};

use network_file::FibreEnds;
use network_run::{Filling, Span};
use otn_base::Memory;
use std::alloc::Global;

/// These fibres, in their order, over which nothing went yet.
pub(crate) fn new_fillings(alloc: Global, fibres: &[FibreEnds]) -> Result<Vec<Filling>, Memory>
    requires near { (f : FibreEnds) → Contains fibres.now f → IsNear f }
    ensures { IfOk result (λ fillings. fillings.items ≡ map new_filling fibres.now) }
{
    let mut fillings = Vec::new(alloc);
    for i in 0..fibres.len() {
        fillings.push(new_filling(item(fibres, i)))?;
    }
    Ok(fillings)
}

fn new_filling(fibre: &FibreEnds) -> Filling
    requires near { IsNear fibre.now }
    ensures { result ≡ new_filling fibre.now }
{
    let span = Span {
        here: fibre.from_node() as u32,
        out: fibre.from_line(),
        there: fibre.to_node() as u32,
        into: fibre.to_line(),
    };
    Filling {
        span,
        mark: 0,
        whole: true,
    }
}

fn item(fibres: &[FibreEnds], index: usize) -> &FibreEnds
    requires { index < length fibres.now }
    ensures { slice_get fibres.now index ≡ Some result.now }
{
    &fibres[index]
}
