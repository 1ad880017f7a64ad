// The fibres of a network's file that are not cut.
ghost use Rattle.std.specs.Prelude.{◌≡◌, ◌++◌, [], ◌∷◌, IfOk, if◌then◌else◌};
ghost use Rattle.network_file.specs.Cuts.{is_cut, whole_fibres, whole_from};

use crate::cut::Cuts;
use crate::fibre::Fibres;
use crate::file::NetworkFile;
use crate::lists::item;
use network_parts::FibreEnds;
use otn_base::Memory;
use std::alloc::Global;

impl NetworkFile {
    /// The fibres that no cut is of, in the order of the file.
    pub fn whole_fibres(&self, alloc: Global) -> Result<Fibres, Memory>
        ensures { IfOk result (λ fibres. fibres ≡ whole_fibres self.now) }
    {
        let list = whole(alloc, &self.cuts, self.fibres.as_slice())?;
        Ok(Fibres::of(list))
    }
}

fn whole(alloc: Global, cuts: &Cuts, fibres: &[FibreEnds]) -> Result<Vec<FibreEnds>, Memory>
    ensures { IfOk result (λ list. list.items ≡ whole_from 1 cuts.now fibres.now) }
{
    let mut list = Vec::new(alloc);
    for i in 0..fibres.len() {
        add(&mut list, cuts, i + 1, *item(fibres, i))?;
    }
    Ok(list)
}

// Adds the fibre of this number, if no cut is of it.
fn add(
    list: &mut Vec<FibreEnds>,
    cuts: &Cuts,
    number: usize,
    fibre: FibreEnds,
) -> Result<(), Memory>
    ensures { IfOk result (λ _. list.new.items
        ≡ list.old.items ++ (if is_cut cuts.now number then [] else fibre ∷ [])) }
{
    if cuts.is_cut(number) {
        return Ok(());
    }
    list.push(fibre)?;
    Ok(())
}
