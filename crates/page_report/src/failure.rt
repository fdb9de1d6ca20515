//! Why a call that allocates has no answer.
use page_format::Fault;
use std::alloc::AllocError;

#[derive(Clone, Copy, PartialEq, Eq, Debug)]
pub enum Failure {
    // the call is rejected
    Rejected(Fault),
    Memory(AllocError),
}

impl From<Fault> for Failure {
    ghost use Rattle.std.specs.Prelude.{◌≡◌};
    ghost use Rattle.page_report.specs.declared.failure.Failure.TheVariants.{Rejected};

    ghost from_gives = { λ f e. e ≡ Rejected f };

    fn from(fault: Fault) -> Failure {
        Failure::Rejected(fault)
    }
}

impl From<AllocError> for Failure {
    ghost use Rattle.std.specs.Prelude.{◌≡◌};
    ghost use Rattle.page_report.specs.declared.failure.Failure.TheVariants.{Memory};

    ghost from_gives = { λ a e. e ≡ Memory a };

    fn from(error: AllocError) -> Failure {
        Failure::Memory(error)
    }
}
