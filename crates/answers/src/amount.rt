use std::fmt;

/// An amount as text, or a hyphen where there is none.
#[derive(Clone, Copy)]
pub(crate) struct Amount(pub(crate) Option<i64>);

impl fmt::Display for Amount {
    ghost use Rattle.std.specs.Prelude.{Some};
    ghost use Rattle.answers.specs.Answers.{amount};

    ghost output = { λ a. Some (amount a.0) };

    #[tactic(auto, using(crate::proofs::Decimals::shown))]
    fn fmt<W: fmt::Write>(&self, f: &mut fmt::Formatter<W>) -> fmt::Result {
        match self.0 {
            None => f.write_str("-"),
            Some(amount) => write!(f, "{amount}"),
        }
    }
}
