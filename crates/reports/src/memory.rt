ghost use Rattle.std.specs.Prelude.{◌≡◌, Bool};
ghost use Rattle.reports.specs.Memory.{request_wants_memory, file_wants_memory, made_unless};

use scorefile::FileFault;
use std::alloc::AllocError;
use worksheet::RequestFault;

// Why a command has no answer.
pub trait Fault {
    // Whether it is want of memory.
    ghost wants_memory: { Self → Bool };

    // Whether the fault is want of memory.
    fn is_want_of_memory(&self) -> bool
        ensures { result ≡ wants_memory self.now };
}

impl Fault for RequestFault {
    ghost wants_memory = { request_wants_memory };

    fn is_want_of_memory(&self) -> bool {
        matches!(self, RequestFault::NoMemory)
    }
}

impl Fault for FileFault {
    ghost wants_memory = { file_wants_memory };

    fn is_want_of_memory(&self) -> bool {
        matches!(self, FileFault::NoMemory)
    }
}

// A report as it was made: an answer, or a fault that is not want of memory. For want of memory none is made.
pub fn made<T, F: Fault + Drop>(report: Result<T, F>) -> Result<Result<T, F>, AllocError>
    ensures { result ≡ made_unless F.wants_memory report }
{
    match report {
        Ok(answer) => Ok(Ok(answer)),
        Err(fault) => {
            if fault.is_want_of_memory() {
                return Err(AllocError);
            }
            Ok(Err(fault))
        }
    }
}
