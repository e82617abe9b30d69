//! The keywords that a schema may have.
ghost use Rattle.std.specs.Prelude.{◌≡◌};
ghost use Rattle.schema_rules.specs.Profiles.{offered};

use crate::keyword::Keyword;

/// Which schemas are accepted. Each profile accepts what those before it accept, with the same meaning.
#[derive(Clone, Copy, Debug, Drop, PartialEq, Eq)]
pub enum Profile {
    /// Without `pattern`, `patternProperties`, `dependentSchemas` and `$anchor`.
    Two,
    /// With all keywords that are read.
    Three,
}

impl Profile {
    /// The keyword; `Keyword::LeftOut` if the profile doesn't offer it.
    pub fn offered(self, keyword: Keyword) -> Keyword
        ensures { result ≡ offered self keyword }
    {
        match (self, keyword) {
            (
                Profile::Two,
                Keyword::Pattern
                | Keyword::PatternProperties
                | Keyword::DependentSchemas
                | Keyword::Anchor,
            ) => Keyword::LeftOut,
            _ => keyword,
        }
    }
}
