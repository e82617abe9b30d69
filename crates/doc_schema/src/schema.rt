//! A schema that was read, and what it accepts.

ghost use Rattle.std.specs.Prelude.{◌≡◌, ◌<◌, ◌↔◌, [], IfErr, IfOk, IfSome, IsTrue, MatchOption, false, length, map, not, true};
ghost use Rattle.doc_tree.specs.Doc.{Doc};
ghost use Rattle.doc_tree.specs.Place.{place_of};
ghost use Rattle.doc_tree.specs.Sound.{IsSound};
ghost use Rattle.doc_tree.specs.TreeView.{view};
ghost use Rattle.doc_schema.specs.Checked.{IsChecked, IsEarlier};
ghost use Rattle.doc_schema.specs.Faults.{IsFaultless, IsFaultOf, IsTooLong, MayHaveLargePatterns};
ghost use Rattle.doc_schema.specs.Judge.{Judges};
ghost use Rattle.schema_changes.specs.Agree.{AgreeButShifted, AgreeOff, AgreeOffEach};
ghost use Rattle.schema_nodes.specs.Compiled.{IsFound};
ghost use Rattle.schema_pattern.specs.Tables.{pattern_sources, sources};
ghost use Rattle.schema_rules.specs.Anchors.{are_different, offered_anchors};
ghost use Rattle.schema_rules.specs.PatternTexts.{offered_texts, pattern_texts};
ghost use Rattle.schema_rules.specs.declared.profile.Profile.TheVariants.{Two, Three};

use crate::defects::{Defect, some_position_has};
use crate::fault::SchemaFault;
use crate::limits::{MOST_BYTES, MOST_HEIGHT};
use crate::patterns::{are_too_large, patterns_of, texts_of_patterns};
use crate::trial::Trial;
use doc_tree::{Step, Tree};
use refusals::numbers::{
    MEMORY, SCHEMA_FORM, SCHEMA_KEYWORD, SCHEMA_LOOP, SCHEMA_REF, SCHEMA_SIZE,
};
use schema_changes::{passes_after, passes_again, passes_shifted};
use schema_levels::passes;
use schema_nodes::{Compiled, compile};
use schema_pattern::{Pattern, Search, searches_of};
use schema_references::Whole;
use schema_rules::{Instance, Profile};
use std::alloc::{AllocError, Global};
use std::marker::Model;

/// A JSON schema without a fault. Clauses see it as the tree that it keeps.
#[derive(Drop)]
pub struct Schema {
    source: Tree,
    nodes: Compiled,
    patterns: Vec<Pattern>,
    /// Profile 2 accepts it too.
    earlier: bool,
}

impl Model for Schema {
    ghost use Rattle.doc_schema.specs.Faults.{IsFaultless, IsSchema};
    ghost use Rattle.doc_tree.specs.TreeView as seen;
    ghost use Rattle.schema_levels.specs.Counters.{AreCounted};
    ghost use Rattle.schema_nodes.specs.Compiled.{IsCompiled};
    ghost use Rattle.schema_pattern.specs.Tables.{pattern_sources};
    ghost use Rattle.schema_rules.specs.PatternTexts.{pattern_texts};
    ghost use Rattle.schema_rules.specs.declared.profile.Profile.TheVariants as profiles;
    ghost use Rattle.std.specs.Prelude.{◌≡◌, ◌↔◌, true};
    ghost use Rattle.doc_tree.specs.contracts.tree.Tree as tree;
    ghost use Rattle.doc_tree.specs.declared.tree.Tree.{Tree};

    ghost Value = { Tree };

    ghost coded = { tree.the_row.coded };

    ghost view = { λ s. s.source };

    ghost invariant = { λ s. IsSchema s.source × IsCompiled (seen.view s.source) s.nodes.nodes.items s.nodes.whole × AreCounted s.nodes.nodes.items s.nodes.counters × (pattern_sources s.patterns.items ≡ pattern_texts (seen.view s.source))
        × ((s.earlier ≡ true) ↔ IsFaultless profiles.Two (seen.view s.source)) };
}

impl Schema {
    /// The schema that the document is (JSON Schema 2020-12), in profile 2.
    ///
    /// Answers the number of the first of these that holds of the whole schema: `refusals::numbers::SCHEMA_SIZE`,
    /// `SCHEMA_FORM`, `SCHEMA_KEYWORD`, `SCHEMA_REF`, `SCHEMA_LOOP`; and `refusals::numbers::MEMORY` if there was no
    /// memory.
    pub fn read(alloc: Global, source: &Tree) -> Result<Schema, SchemaFault>
        ensures ok { IfOk result (λ s. (view s ≡ view source.now) × IsFaultless Two (view s)) }
        ensures sound { IfOk result (λ s. IsSound (view s)) }
        ensures err { IfErr result (IsFaultOf Two (view source.now)) }
    {
        Schema::read_in(Profile::Two, alloc, source)
    }

    /// The same in a profile, which says what is refused.
    ///
    /// A schema that has no other fault, and whose patterns are too large together, is refused with `MEMORY` too.
    /// `has_large_patterns` knows it.
    pub fn read_in(profile: Profile, alloc: Global, source: &Tree) -> Result<Schema, SchemaFault>
        ensures ok { IfOk result (λ s. (view s ≡ view source.now) × IsFaultless profile (view s)) }
        ensures sound { IfOk result (λ s. IsSound (view s)) }
        ensures err { IfErr result (IsFaultOf profile (view source.now)) }
    {
        match Schema::read_whole(profile, alloc, source) {
            Ok(Some(schema)) => Ok(schema),
            Ok(None) => Err(SchemaFault { number: MEMORY }),
            Err(fault) => Err(fault),
        }
    }

    /// Whether the document is a schema that has no fault, but its patterns take more than `limits::PATTERN_ROOM` together.
    /// It may answer no for such a one if there was no memory to read it.
    pub fn has_large_patterns(profile: Profile, alloc: Global, source: &Tree) -> bool
        ensures { IsTrue result → MayHaveLargePatterns profile (view source.now) }
    {
        match Schema::read_whole(profile, alloc, source) {
            Ok(None) => true,
            Ok(Some(_)) | Err(_) => false,
        }
    }

    // The schema that the document is in the profile; none if it has no fault, and its patterns are too large.
    fn read_whole(
        profile: Profile,
        alloc: Global,
        source: &Tree,
    ) -> Result<Option<Schema>, SchemaFault>
        ensures ok { IfOk result (λ found. MatchOption found (MayHaveLargePatterns profile (view source.now)) (λ s. (view s ≡ view source.now) × IsFaultless profile (view s))) }
        ensures sound { IfOk result (λ found. IfSome found (λ s. IsSound (view s))) }
        ensures err { IfErr result (IsFaultOf profile (view source.now)) }
    {
        let Checked {
            texts,
            patterns,
            earlier,
        } = check(profile, source, alloc)?;
        let source = source.copy(alloc)?;
        match nodes_of(&source, &texts, alloc)? {
            Some(nodes) => match patterns {
                Some(patterns) => Ok(Some(Schema {
                    source,
                    nodes,
                    patterns,
                    earlier,
                })),
                None => Ok(None),
            },
            None => Err(SchemaFault {
                number: SCHEMA_LOOP,
            }),
        }
    }

    /// Whether the profile accepts it, so that it has no fault there. Takes no memory.
    pub fn is_in(&self, profile: Profile) -> bool
        ensures { (result ≡ true) ↔ IsFaultless profile (view self.now) }
    {
        match profile {
            Profile::Two => self.earlier,
            Profile::Three => true,
        }
    }

    /// Whether it has patterns, so that a trial is needed to judge under it. Takes no memory.
    pub fn has_patterns(&self) -> bool
        ensures { (result ≡ false) ↔ (pattern_texts (view self.now) ≡ []) }
    {
        !self.patterns.as_slice().is_empty()
    }

    /// What judges instances under it, patterns and all. An error means that memory ran out; none is taken without
    /// patterns.
    pub fn trial(&self, alloc: Global) -> Result<Trial<'_>, AllocError>
        ensures { IfOk result (λ t. t.schema.now ≡ self.now) }
    {
        Ok(Trial {
            schema: self,
            searches: searches_of(alloc, &self.patterns)?,
        })
    }

    /// Whether the instance is valid under the schema (JSON Schema Core, section 4.3). None if the schema has patterns,
    /// under which a trial judges. Takes no memory.
    pub fn accepts(&self, instance: &Tree) -> Option<bool>
        ensures { MatchOption result (pattern_texts (view self.now) ≡ [] → ⊥) (Judges (view self.now) (view instance.now)) }
    {
        if self.has_patterns() {
            return None;
        }
        let mut none: [Search<'_>; 0] = [];
        Some(self.judged(&mut none, instance))
    }

    /// The same of an instance that agrees with a valid one off the location of these steps: only the values along the
    /// location are judged again, and what `anyOf`, `oneOf`, `not`, `if` and `contains` say at them. Takes no memory.
    pub fn accepts_change(&self, instance: &Tree, path: &[Step]) -> Option<bool>
        ensures { MatchOption result (pattern_texts (view self.now) ≡ [] → ⊥)
            (λ b. (valid : Doc) → Judges (view self.now) valid true → AgreeOff (map place_of path.now) valid (view instance.now)
            → Judges (view self.now) (view instance.now) b) }
    {
        if self.has_patterns() {
            return None;
        }
        let mut none: [Search<'_>; 0] = [];
        Some(self.judged_again(&mut none, instance, path))
    }

    /// The same of an instance that agrees with a valid one off all of these locations: a document may have changed at one
    /// after another, and only the last is judged, along each of them. Takes no memory.
    pub fn accepts_changes(&self, instance: &Tree, paths: &[Vec<Step>]) -> Option<bool>
        ensures { MatchOption result (pattern_texts (view self.now) ≡ [] → ⊥)
            (λ b. (valid : Doc) → Judges (view self.now) valid true → AgreeOffEach (map (λ p. map place_of p.items) paths.now) valid (view instance.now)
            → Judges (view self.now) (view instance.now) b) }
    {
        if self.has_patterns() {
            return None;
        }
        let mut none: [Search<'_>; 0] = [];
        Some(self.judged_after(&mut none, instance, paths))
    }

    /// The same of an instance that agrees with a valid one off the location of these steps, if an element came to the
    /// end of the location, or went from there, between others: those after it have other indexes, and are judged again
    /// only if some schema asks something else of them by their place. Takes no memory.
    pub fn accepts_shift(&self, instance: &Tree, path: &[Step]) -> Option<bool>
        ensures { MatchOption result (pattern_texts (view self.now) ≡ [] → ⊥)
            (λ b. (valid : Doc) → Judges (view self.now) valid true → AgreeButShifted (map place_of path.now) valid (view instance.now)
            → Judges (view self.now) (view instance.now) b) }
    {
        if self.has_patterns() {
            return None;
        }
        let mut none: [Search<'_>; 0] = [];
        Some(self.judged_shifted(&mut none, instance, path))
    }

    /// Whether the instance is valid, with the searches for its patterns.
    pub(crate) fn judged(&self, searches: &mut [Search<'_>], instance: &Tree) -> bool
        requires { sources searches.old ≡ pattern_texts (view self.now) }
        ensures judged { Judges (view self.now) (view instance.now) result }
        ensures same { sources searches.new ≡ sources searches.old }
    {
        passes(
            &self.nodes.nodes,
            &self.nodes.counters,
            searches,
            self.nodes.whole,
            Instance::Value(instance),
        )
    }

    /// The same of an instance that agrees with a valid one off the location of these steps.
    pub(crate) fn judged_again(
        &self,
        searches: &mut [Search<'_>],
        instance: &Tree,
        path: &[Step],
    ) -> bool
        requires { sources searches.old ≡ pattern_texts (view self.now) }
        ensures judged { (valid : Doc) → Judges (view self.now) valid true → AgreeOff (map place_of path.now) valid (view instance.now)
            → Judges (view self.now) (view instance.now) result }
        ensures same { sources searches.new ≡ sources searches.old }
    {
        passes_again(
            &self.nodes.nodes,
            &self.nodes.counters,
            searches,
            self.nodes.whole,
            instance,
            path,
        )
    }

    /// The same of an instance that agrees with a valid one off all of these locations.
    pub(crate) fn judged_after(
        &self,
        searches: &mut [Search<'_>],
        changed: &Tree,
        paths: &[Vec<Step>],
    ) -> bool
        requires { sources searches.old ≡ pattern_texts (view self.now) }
        ensures judged { (valid : Doc) → Judges (view self.now) valid true → AgreeOffEach (map (λ p. map place_of p.items) paths.now) valid (view changed.now)
            → Judges (view self.now) (view changed.now) result }
        ensures same { sources searches.new ≡ sources searches.old }
    {
        passes_after(
            &self.nodes.nodes,
            &self.nodes.counters,
            searches,
            self.nodes.whole,
            changed,
            paths,
        )
    }

    /// The same if an element came to the end of these steps, or went from there.
    pub(crate) fn judged_shifted(
        &self,
        searches: &mut [Search<'_>],
        shifted: &Tree,
        path: &[Step],
    ) -> bool
        requires { sources searches.old ≡ pattern_texts (view self.now) }
        ensures judged { (valid : Doc) → Judges (view self.now) valid true → AgreeButShifted (map place_of path.now) valid (view shifted.now)
            → Judges (view self.now) (view shifted.now) result }
        ensures same { sources searches.new ≡ sources searches.old }
    {
        passes_shifted(
            &self.nodes.nodes,
            &self.nodes.counters,
            searches,
            self.nodes.whole,
            shifted,
            path,
        )
    }

    /// The document that was read. Takes no memory.
    pub fn source(&self) -> &Tree
        ensures same { result.now ≡ self.now }
        ensures faultless { IsFaultless Three (view self.now) }
    {
        &self.source
    }
}

// The texts of a schema's patterns, and the patterns.
#[derive(Drop)]
struct Checked<'s> {
    texts: Vec<&'s str>,
    // None if they are too large.
    patterns: Option<Vec<Pattern>>,
    // Profile 2 has its keywords and references.
    earlier: bool,
}

// The nodes of a schema; none if it leads back to itself. There are at most a third as many as bytes of its text, and
// at most a thirteenth as many counters.
fn nodes_of(source: &Tree, texts: &[&str], alloc: Global) -> Result<Option<Compiled>, AllocError>
    requires checked { IsChecked Three (view source.now) }
    requires texts { map (λ s. s.now) texts.now ≡ pattern_texts (view source.now) }
    ensures { IfOk result (λ found. IsFound (view source.now) found) }
{
    compile(source, texts, alloc)
}

// What a schema's patterns are, if it has no fault but for loops, and how large they are; or else its first fault.
fn check<'s>(profile: Profile, source: &'s Tree, alloc: Global) -> Result<Checked<'s>, SchemaFault>
    ensures ok { IfOk result (λ _. IsChecked profile (view source.now)) }
    ensures texts { IfOk result (λ c. map (λ s. s.now) c.texts.items ≡ offered_texts profile (view source.now)) }
    ensures patterns { IfOk result (λ c. MatchOption c.patterns (0 < length (offered_texts profile (view source.now))) (λ ps. pattern_sources ps.items ≡ offered_texts profile (view source.now))) }
    ensures earlier { IfOk result (λ c. (c.earlier ≡ true) ↔ IsEarlier (view source.now)) }
    ensures err { IfErr result (IsFaultOf profile (view source.now)) }
{
    if is_too_long(source) {
        return Err(SchemaFault {
            number: SCHEMA_SIZE,
        });
    }
    let texts = texts_of_patterns(profile, source, alloc)?;
    if are_too_large(&texts) {
        return Err(SchemaFault {
            number: SCHEMA_SIZE,
        });
    }
    let whole = Whole::of(source, alloc)?;
    if some_position_has(profile, Defect::Form, &whole, alloc)? {
        return Err(SchemaFault {
            number: SCHEMA_FORM,
        });
    }
    let patterns = patterns_of(&texts, alloc)?;
    if has_equal_anchors(profile, &whole) {
        return Err(SchemaFault {
            number: SCHEMA_FORM,
        });
    }
    if some_position_has(profile, Defect::LeftOut, &whole, alloc)? {
        return Err(SchemaFault {
            number: SCHEMA_KEYWORD,
        });
    }
    if some_position_has(profile, Defect::Reference, &whole, alloc)? {
        return Err(SchemaFault { number: SCHEMA_REF });
    }
    let earlier = is_earlier(&whole, alloc)?;
    Ok(Checked {
        texts,
        patterns,
        earlier,
    })
}

// Whether profile 2 leaves out none of its keywords, and each reference names a schema there.
fn is_earlier(whole: &Whole<'_>, alloc: Global) -> Result<bool, AllocError>
    ensures { IfOk result (λ b. (b ≡ true) ↔ IsEarlier (view whole.now)) }
{
    if some_position_has(Profile::Two, Defect::LeftOut, whole, alloc)? {
        return Ok(false);
    }
    Ok(!some_position_has(Profile::Two, Defect::Reference, whole, alloc)?)
}

// Whether two anchors that the profile offers are equal.
fn has_equal_anchors(profile: Profile, whole: &Whole<'_>) -> bool
    ensures { result ≡ not (are_different (offered_anchors profile (view whole.now))) }
{
    match profile {
        Profile::Two => false,
        Profile::Three => !whole.anchors_are_different(),
    }
}

// Whether the text is too long, or it nests too deep.
fn is_too_long(source: &Tree) -> bool
    ensures { IsTrue result ↔ IsTooLong (view source.now) }
{
    match source.text_len_within(MOST_BYTES) {
        Some(_) => source.height() > MOST_HEIGHT,
        None => true,
    }
}
