// The broad oracle: every place of the package for every block of it.
ghost use Rattle.oracle_laws.specs.Sets.{broad as broad_sets};
ghost use Rattle.oracles.specs.Answers.{broad_answers};
ghost use Rattle.oracle_laws.proofs.Broad.{broad_lawful_lem};

use super::WriteOracle;
use package::held::Package;
use std::alloc::{AllocError, Global};

// How many blocks and places the package has.
#[derive(Clone, Copy)]
pub struct Broad {
    blocks: usize,
    places: usize,
}

impl WriteOracle for Broad {
    ghost sets = { broad_sets };

    ghost answers = { broad_answers };

    ghost lawful = { broad_lawful_lem };

    fn prepare(_heap: Global, held: &Package) -> Result<Broad, AllocError> {
        let contents = held.contents();
        Ok(Broad {
            blocks: contents.blocks.len(),
            places: contents.places(),
        })
    }

    fn names(&self, block: usize, place: u8) -> bool {
        block < self.blocks && usize::from(place) < self.places
    }
}
