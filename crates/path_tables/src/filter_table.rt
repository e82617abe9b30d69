//! A filter's table: its outcome at each node of a document, by the nodes' numbers.
ghost use Rattle.std.specs.Prelude.{◌≡◌};
ghost use Rattle.path_tables.specs.FilterTables.{is_held, is_refused, said_at};
ghost use Rattle.path_select.specs.Gives.{Gives};

use path_select::stop::Stop;

/// The outcome of a filter at a value.
#[derive(Clone, Copy, Drop)]
pub enum FilterOutcome {
    /// A query in it has too many nodes there.
    Refused,
    Holds,
    Fails,
}

/// The outcome of a filter at each node.
#[derive(Drop)]
pub struct FilterTable {
    /// In the order of the nodes' numbers.
    pub said: Vec<FilterOutcome>,
    /// The answer on the root, and on every further number.
    pub top: FilterOutcome,
}

impl FilterTable {
    /// What it says of the node of that number.
    fn at(&self, number: usize) -> FilterOutcome
        ensures { result ≡ said_at self.now number }
    {
        match self.said.get(number) {
            Some(said) => *said,
            None => self.top,
        }
    }
    /// Whether it holds of the node of that number.
    pub fn holds(&self, number: usize) -> Result<bool, Stop>
        ensures { Gives (λ b. b) result (is_refused number self.now) (is_held number self.now) }
    {
        match self.at(number) {
            FilterOutcome::Refused => Err(Stop::TooMany),
            FilterOutcome::Holds => Ok(true),
            FilterOutcome::Fails => Ok(false),
        }
    }
}
