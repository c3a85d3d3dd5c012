//! What a book means: its rows, its calls and what each of them gives; the tally of a run of
//! calls; and the law that no run of calls makes or loses a cent. The definitions stand in specs/,
//! the proof of the law in proofs/. The code is only the types that the definitions share with
//! the book.
#![tactic(auto)]

mod account;
mod refusal;
mod row_answer;
mod standing;
mod state;

pub use account::{Account, Filed};
pub use refusal::Refusal;
pub use row_answer::RowAnswer;
pub use standing::Standing;
pub use state::State;
