use lb_desk_shared::CloseFault;
use lb_run_doors::{BindFault, HandedFault};
use std::alloc::{AllocError, AllocFailed};
use thiserror::Error;

/// Why the balancer didn't run, or didn't end as it should.
#[derive(Debug, Drop, Error)]
pub enum RunFault {
    /// This address can't be bound. Nothing ran.
    #[error("an address can't be bound")]
    Bind(Vec<u8>),
    /// A socket that was handed over can't be used, or the environment that says which there are. Nothing ran.
    #[error("a socket that was handed over can't be used")]
    Handed(HandedFault),
    /// There is not memory enough, or a thread can't be made. What ran was ended.
    #[error("out of memory")]
    Memory,
    /// The system's clock or its random numbers can't be read. Nothing ran.
    #[error("the system's clock or its random numbers can't be read")]
    System,
    /// A desk can't be closed. No run is known that ends so.
    #[error("a backend can't be closed")]
    StillOpen(CloseFault),
    /// What is printed at the end can't be written.
    #[error("the answer can't be written")]
    CannotWrite,
}

impl From<AllocError> for RunFault {
    ghost use Rattle.std.specs.Prelude.{◌≡◌};
    ghost use Rattle.lb_run.specs.declared.fault.RunFault.TheVariants.{Memory};

    ghost from_gives = { λ _ fault. fault ≡ Memory };

    fn from(_: AllocError) -> Self {
        RunFault::Memory
    }
}

impl<T: Drop> From<AllocFailed<T>> for RunFault {
    ghost use Rattle.std.specs.Prelude.{◌≡◌};
    ghost use Rattle.lb_run.specs.declared.fault.RunFault.TheVariants.{Memory};

    ghost from_gives = { λ _ fault. fault ≡ Memory };

    fn from(_: AllocFailed<T>) -> Self {
        RunFault::Memory
    }
}

impl From<BindFault> for RunFault {
    ghost use Rattle.std.specs.Prelude.{◌≢◌};
    ghost use Rattle.lb_run.specs.declared.fault.RunFault.TheVariants.{CannotWrite};

    ghost from_gives = { λ _ fault. fault ≢ CannotWrite };

    fn from(fault: BindFault) -> Self {
        match fault {
            BindFault::CannotBind(address) => RunFault::Bind(address),
            BindFault::Handed(fault) => RunFault::Handed(fault),
            BindFault::Memory => RunFault::Memory,
        }
    }
}
