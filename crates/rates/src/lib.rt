//! Rate lists: what interest each month bears, if any. The flat list, the quarter list, the holding
//! list over any list, the lists that a line of text can name, and the factor of a year.
#![tactic(auto)]

mod factors;
mod flat_list;
mod holding_list;
mod named_list;
mod quarter_list;
mod rate_list;

pub use factors::factor;
pub use flat_list::FlatList;
pub use holding_list::HoldingList;
pub use named_list::NamedList;
pub use quarter_list::QuarterList;
pub use rate_list::{HIGHEST_RATE, RateList};
