//! A program that was accepted.

ghost use Rattle.std.specs.Prelude.{◌≡◌, None};
ghost use Rattle.instruction_set.specs.Program.{IsProgram};
ghost use Rattle.program_interface.specs.RunSizes.{AreSizes};
ghost use Rattle.program_meaning.specs.Places.{AccessesLie};
ghost use Rattle.program_meaning.specs.TrapFree.{NeverTraps};
ghost use Rattle.accepted_programs.specs.Accepted.{refusal};
ghost use Rattle.accepted_programs.specs.Places.{ArePlaces, place_at};
ghost use Rattle.accepted_programs.proofs.Proved.{accesses_lie_is_prop, are_places_is_prop, never_traps_is_prop};

use accepted_programs::laws::{accepted_accesses_lie, accepted_never_traps};
use instruction_set::Program;
use program_interface::RunSizes;
use program_meaning::{Place, TrapFree};
use std::marker::PhantomData;
use word_domain::Domain;

/// A program that is accepted over a domain, for runs of some sizes. It never traps.
#[derive(Drop)]
pub struct Verified<D: Domain> {
    program: Program,
    sizes: RunSizes,
    places: Vec<Option<Place>>,
    domain: PhantomData<D>,
    ghost are_sizes: { AreSizes sizes },
    ghost accepted: { refusal D.operations program sizes ≡ None },
    ghost never_traps: { NeverTraps program sizes.limit sizes.block } by { never_traps_is_prop program sizes.limit sizes.block },
    ghost are_places: { ArePlaces D.operations sizes.block program places.items } by { are_places_is_prop D.operations sizes.block program places.items },
    ghost accesses_lie: { AccessesLie program sizes.limit sizes.block (place_at D.operations sizes.block program) } by { accesses_lie_is_prop program sizes.limit sizes.block (place_at D.operations sizes.block program) },
}

impl<D: Domain> Verified<D> {
    ghost use Rattle.verifier.specs.Verified.{program_of, sizes_of};

    /// Keeps a program that is accepted, and where it accesses memory.
    pub(crate) fn new(program: Program, sizes: RunSizes, places: Vec<Option<Place>>) -> Verified<D>
        requires is_program { IsProgram program }
        requires are_sizes { AreSizes sizes }
        requires accepted { refusal D.operations program sizes ≡ None }
        requires are_places { ArePlaces D.operations sizes.block program places.items }
        ensures program { program_of result ≡ program }
        ensures sizes { sizes_of result ≡ sizes }
    {
        accepted_never_traps::<D>();
        accepted_accesses_lie::<D>();
        Verified {
            program,
            sizes,
            places,
            domain: PhantomData,
        }
    }

    /// The program.
    pub fn program(&self) -> &Program
        ensures { result.now ≡ program_of self.now }
    {
        &self.program
    }

    /// The sizes of the runs that it was accepted for.
    pub fn sizes(&self) -> RunSizes
        ensures { result ≡ sizes_of self.now }
    {
        self.sizes
    }

    /// Where the instruction at a slot accesses memory, in each block run that comes there, as the facts at that slot tell; `None`
    /// where it accesses none, and where no block run comes.
    pub fn place_at(&self, slot: usize) -> Option<Place>
        ensures { result ≡ place_at D.operations (sizes_of self.now).block (program_of self.now) slot }
    {
        *self.places.get(slot)?
    }
}

impl<D: Domain> TrapFree for Verified<D> {
    ghost code = { λ v. v.program };

    ghost limit = { λ v. v.sizes.limit };

    ghost block = { λ v. v.sizes.block };

    ghost place = { λ v. place_at D.operations v.sizes.block v.program };

    fn program(&self) -> &Program {
        Verified::program(self)
    }

    fn limit(&self) -> usize {
        Verified::sizes(self).limit() as usize
    }

    fn block(&self) -> usize {
        Verified::sizes(self).block().bytes() as usize
    }

    fn place_at(&self, slot: usize) -> Option<Place> {
        Verified::place_at(self, slot)
    }

    ghost never_traps = { λ v. v.never_traps };

    ghost accesses_lie = { λ v. v.accesses_lie };
}
