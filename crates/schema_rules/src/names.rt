//! The keyword that a name is.
ghost use Rattle.std.specs.Prelude.{◌≡◌};
ghost use Rattle.schema_rules.specs.Keywords.{keyword_of, for_any, for_numbers, for_sizes, for_children, in_place, of_core, not_offered};

use crate::keyword::Keyword;

/// The keyword of that name; `Unknown` for a name that asserts nothing.
#[tactic(auto, unfolding(crate::specs::Keywords::keyword_of))]
pub fn keyword_named(name: &str) -> Keyword
    ensures { result ≡ keyword_of name.now }
{
    if let Some(keyword) = for_any(name) {
        return keyword;
    }
    if let Some(keyword) = for_numbers(name) {
        return keyword;
    }
    if let Some(keyword) = for_sizes(name) {
        return keyword;
    }
    if let Some(keyword) = for_children(name) {
        return keyword;
    }
    if let Some(keyword) = in_place(name) {
        return keyword;
    }
    if let Some(keyword) = of_core(name) {
        return keyword;
    }
    if let Some(keyword) = not_offered(name) {
        return keyword;
    }
    Keyword::Unknown
}

#[tactic(auto, unfolding(crate::specs::Keywords::for_any))]
fn for_any(name: &str) -> Option<Keyword>
    ensures { result ≡ for_any name.now }
{
    match name {
        "type" => Some(Keyword::OfType),
        "enum" => Some(Keyword::Enumeration),
        "const" => Some(Keyword::Constant),
        _ => None,
    }
}

#[tactic(auto, unfolding(crate::specs::Keywords::for_numbers))]
fn for_numbers(name: &str) -> Option<Keyword>
    ensures { result ≡ for_numbers name.now }
{
    match name {
        "multipleOf" => Some(Keyword::MultipleOf),
        "minimum" => Some(Keyword::Minimum),
        "maximum" => Some(Keyword::Maximum),
        "exclusiveMinimum" => Some(Keyword::ExclusiveMinimum),
        "exclusiveMaximum" => Some(Keyword::ExclusiveMaximum),
        _ => None,
    }
}

#[tactic(auto, unfolding(crate::specs::Keywords::for_sizes))]
fn for_sizes(name: &str) -> Option<Keyword>
    ensures { result ≡ for_sizes name.now }
{
    match name {
        "minLength" => Some(Keyword::MinLength),
        "maxLength" => Some(Keyword::MaxLength),
        "minItems" => Some(Keyword::MinItems),
        "maxItems" => Some(Keyword::MaxItems),
        "uniqueItems" => Some(Keyword::UniqueItems),
        "minProperties" => Some(Keyword::MinProperties),
        "maxProperties" => Some(Keyword::MaxProperties),
        "required" => Some(Keyword::Required),
        "dependentRequired" => Some(Keyword::DependentRequired),
        _ => None,
    }
}

#[tactic(auto, unfolding(crate::specs::Keywords::for_children))]
fn for_children(name: &str) -> Option<Keyword>
    ensures { result ≡ for_children name.now }
{
    match name {
        "properties" => Some(Keyword::Properties),
        "additionalProperties" => Some(Keyword::AdditionalProperties),
        "propertyNames" => Some(Keyword::PropertyNames),
        "prefixItems" => Some(Keyword::PrefixItems),
        "items" => Some(Keyword::Items),
        "contains" => Some(Keyword::Contains),
        "minContains" => Some(Keyword::MinContains),
        "maxContains" => Some(Keyword::MaxContains),
        _ => None,
    }
}

#[tactic(auto, unfolding(crate::specs::Keywords::in_place))]
fn in_place(name: &str) -> Option<Keyword>
    ensures { result ≡ in_place name.now }
{
    match name {
        "allOf" => Some(Keyword::AllOf),
        "anyOf" => Some(Keyword::AnyOf),
        "oneOf" => Some(Keyword::OneOf),
        "not" => Some(Keyword::Not),
        "if" => Some(Keyword::If),
        "then" => Some(Keyword::Then),
        "else" => Some(Keyword::Else),
        _ => None,
    }
}

#[tactic(auto, unfolding(crate::specs::Keywords::of_core))]
fn of_core(name: &str) -> Option<Keyword>
    ensures { result ≡ of_core name.now }
{
    match name {
        "$defs" => Some(Keyword::Defs),
        "$ref" => Some(Keyword::Ref),
        "$id" => Some(Keyword::Id),
        "$schema" => Some(Keyword::Dialect),
        _ => None,
    }
}

#[tactic(auto, unfolding(crate::specs::Keywords::not_offered))]
fn not_offered(name: &str) -> Option<Keyword>
    ensures { result ≡ not_offered name.now }
{
    match name {
        "pattern" => Some(Keyword::Pattern),
        "patternProperties" => Some(Keyword::PatternProperties),
        "unevaluatedItems" => Some(Keyword::LeftOut),
        "unevaluatedProperties" => Some(Keyword::LeftOut),
        "dependentSchemas" => Some(Keyword::DependentSchemas),
        "$anchor" => Some(Keyword::Anchor),
        "$dynamicRef" => Some(Keyword::LeftOut),
        "$dynamicAnchor" => Some(Keyword::LeftOut),
        "$vocabulary" => Some(Keyword::LeftOut),
        _ => None,
    }
}
