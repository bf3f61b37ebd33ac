ghost use Rattle.std.specs.Prelude.{◌≡◌};
ghost use Rattle.worksheet.specs.declared.fault.SheetFault.TheVariants as sheetfault;
ghost use Rattle.worksheet.specs.declared.fault.RequestFault.TheVariants as requestfault;

use divide::DivideRefusal;
use std::alloc::{AllocError, AllocFailed};
use thiserror::Error;

// Why there is no sheet.
#[derive(Clone, Copy, Debug, Error)]
pub enum SheetFault {
    #[error(transparent)]
    Refused(DivideRefusal),
    #[error("out of memory")]
    NoMemory,
}

impl From<DivideRefusal> for SheetFault {
    ghost from_gives = { λ e f. f ≡ sheetfault.Refused e };

    fn from(e: DivideRefusal) -> SheetFault {
        SheetFault::Refused(e)
    }
}

impl From<AllocError> for SheetFault {
    ghost from_gives = { λ _ f. f ≡ sheetfault.NoMemory };

    fn from(_e: AllocError) -> SheetFault {
        SheetFault::NoMemory
    }
}

impl<T: Drop> From<AllocFailed<T>> for SheetFault {
    ghost from_gives = { λ _ f. f ≡ sheetfault.NoMemory };

    fn from(_e: AllocFailed<T>) -> SheetFault {
        SheetFault::NoMemory
    }
}

// Why words are no total and weights.
#[derive(Debug, Drop, Error)]
pub enum RequestFault {
    // There is no word.
    #[error("expected a total, a whole number from 0 to 18446744073709551615, found nothing")]
    NoTotal,
    // The first word is no whole number of 64 bits.
    #[error("expected a total, a whole number from 0 to 18446744073709551615, found '{0}'")]
    NotATotal(String),
    // The word of the weight at this place is the first that is no whole number of 32 bits.
    #[error("expected a weight for place {0}, a whole number from 0 to 4294967295, found '{1}'")]
    NotAWeight(usize, String),
    #[error("out of memory")]
    NoMemory,
}

impl<E> From<E> for RequestFault
where
    AllocError: From<E>,
{
    ghost from_gives = { λ _ f. f ≡ requestfault.NoMemory };

    fn from(e: E) -> RequestFault {
        let AllocError = AllocError::from(e);
        RequestFault::NoMemory
    }
}
