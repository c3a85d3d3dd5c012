//! A filing read from an input of any length, and why its pages cannot be shown.
#![tactic(auto)]

ghost use Rattle.std.specs.Prelude.{◌≡◌, IfOk, IfSome, take};
ghost use Rattle.filing.specs.Filing.{filed};

use filing::LONGEST;
use std::alloc::Allocator;
use std::io;
use std::io::Read;
use thiserror::Error;

/// Why the pages of a filing were not shown.
#[derive(Debug, Drop, Error)]
pub enum PagesError {
    #[error("the filing cannot be read: {0}")]
    Unreadable(io::Error),
    #[error("the pages cannot be written: {0}")]
    Unwritable(io::Error),
}

/// How many bytes of an input are read at most: one more than the longest filing has.
fn most_read() -> u64
    ensures { result ≡ 65537 }
{
    LONGEST as u64 + 1
}

/// Reads an input to its end, or as far as one byte more than the longest filing has. So a filing that is too long
/// is seen to be too long, and no more of it is held than that.
pub fn read_file<A: Allocator, R: Read + Drop>(alloc: A, input: R) -> io::Result<Vec<u8, A>>
    ensures is_the_first_65537_bytes_of_the_input { IfOk result (λ file. IfSome (R.remaining input) (λ bytes. file.items ≡ take 65537 bytes)) }
    ensures is_filed_as_the_whole_input { IfOk result (λ file. IfSome (R.remaining input) (λ bytes. filed file.items ≡ filed bytes)) }
{
    let mut file = Vec::new(alloc);
    input.take(most_read()).read_to_end(&mut file)?;
    Ok(file)
}
