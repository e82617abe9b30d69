//! A schema with the searches for its patterns, which judges instances.

ghost use Rattle.std.specs.Prelude.{◌≡◌, map, true};
ghost use Rattle.doc_tree.specs.Doc.{Doc};
ghost use Rattle.doc_tree.specs.Place.{place_of};
ghost use Rattle.doc_tree.specs.TreeView.{view};
ghost use Rattle.doc_schema.specs.Judge.{Judges};
ghost use Rattle.schema_changes.specs.Agree.{AgreeButShifted, AgreeOff, AgreeOffEach};
ghost use Rattle.schema_pattern.specs.Tables.{sources};
ghost use Rattle.schema_rules.specs.PatternTexts.{pattern_texts};

use crate::schema::Schema;
use doc_tree::{Step, Tree};
use schema_pattern::Search;

/// A schema and what searches for its patterns.
#[derive(Drop)]
pub struct Trial<'s> {
    pub(crate) schema: &'s Schema,
    pub(crate) searches: Vec<Search<'s>>,
    ghost searched: { sources searches.items ≡ pattern_texts (view schema.now) },
}

impl<'s> Trial<'s> {
    /// Whether the instance is valid under the schema (JSON Schema Core, section 4.3). Takes no memory.
    pub fn accepts(&mut self, instance: &Tree) -> bool
        ensures judged { Judges (view self.old.schema.now) (view instance.now) result }
        ensures same { self.new.schema ≡ self.old.schema }
    {
        self.schema.judged(&mut self.searches, instance)
    }

    /// The same of an instance that agrees with a valid one off the location of these steps: only the values along the
    /// location are judged again, and what `anyOf`, `oneOf`, `not`, `if` and `contains` say at them. Takes no memory.
    pub fn accepts_change(&mut self, instance: &Tree, path: &[Step]) -> bool
        ensures judged { (valid : Doc) → Judges (view self.old.schema.now) valid true → AgreeOff (map place_of path.now) valid (view instance.now)
            → Judges (view self.old.schema.now) (view instance.now) result }
        ensures same { self.new.schema ≡ self.old.schema }
    {
        self.schema.judged_again(&mut self.searches, instance, path)
    }

    /// The same of an instance that agrees with a valid one off all of these locations: a document may have changed at one
    /// after another, and only the last is judged, along each of them. Takes no memory.
    pub fn accepts_changes(&mut self, instance: &Tree, paths: &[Vec<Step>]) -> bool
        ensures judged { (valid : Doc) → Judges (view self.old.schema.now) valid true → AgreeOffEach (map (λ p. map place_of p.items) paths.now) valid (view instance.now)
            → Judges (view self.old.schema.now) (view instance.now) result }
        ensures same { self.new.schema ≡ self.old.schema }
    {
        self.schema
            .judged_after(&mut self.searches, instance, paths)
    }

    /// The same of an instance that agrees with a valid one off the location of these steps, if an element came to the
    /// end of the location, or went from there, between others. Takes no memory.
    pub fn accepts_shift(&mut self, instance: &Tree, path: &[Step]) -> bool
        ensures judged { (valid : Doc) → Judges (view self.old.schema.now) valid true → AgreeButShifted (map place_of path.now) valid (view instance.now)
            → Judges (view self.old.schema.now) (view instance.now) result }
        ensures same { self.new.schema ≡ self.old.schema }
    {
        self.schema
            .judged_shifted(&mut self.searches, instance, path)
    }
}
