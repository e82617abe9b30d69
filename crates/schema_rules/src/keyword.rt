//! A member of a schema object by what its name asks for, and how its value holds schemas.
ghost use Rattle.std.specs.Prelude.{◌≡◌};
ghost use Rattle.schema_rules.specs.Keywords.{shape_of};

/// A keyword of JSON Schema 2020-12, or that a name is none which is read.
#[derive(Clone, Copy, Drop, PartialEq, Eq)]
pub enum Keyword {
    /// `type`: Validation, section 6.1.1.
    OfType,
    /// `enum`: Validation, section 6.1.2.
    Enumeration,
    /// `const`: Validation, section 6.1.3.
    Constant,
    /// `multipleOf`: Validation, section 6.2.1.
    MultipleOf,
    /// `minimum`: Validation, section 6.2.4.
    Minimum,
    /// `maximum`: Validation, section 6.2.2.
    Maximum,
    /// `exclusiveMinimum`: Validation, section 6.2.5.
    ExclusiveMinimum,
    /// `exclusiveMaximum`: Validation, section 6.2.3.
    ExclusiveMaximum,
    /// `minLength`: Validation, section 6.3.2.
    MinLength,
    /// `maxLength`: Validation, section 6.3.1.
    MaxLength,
    /// `pattern`: Validation, section 6.3.3.
    Pattern,
    /// `minItems`: Validation, section 6.4.2.
    MinItems,
    /// `maxItems`: Validation, section 6.4.1.
    MaxItems,
    /// `uniqueItems`: Validation, section 6.4.3.
    UniqueItems,
    /// `minProperties`: Validation, section 6.5.2.
    MinProperties,
    /// `maxProperties`: Validation, section 6.5.1.
    MaxProperties,
    /// `required`: Validation, section 6.5.3.
    Required,
    /// `dependentRequired`: Validation, section 6.5.4.
    DependentRequired,
    /// `properties`: Core, section 10.3.2.1.
    Properties,
    /// `patternProperties`: Core, section 10.3.2.2.
    PatternProperties,
    /// `additionalProperties`: Core, section 10.3.2.3.
    AdditionalProperties,
    /// `propertyNames`: Core, section 10.3.2.4.
    PropertyNames,
    /// `prefixItems`: Core, section 10.3.1.1.
    PrefixItems,
    /// `items`: Core, section 10.3.1.2.
    Items,
    /// `contains`: Core, section 10.3.1.3.
    Contains,
    /// `minContains`: Validation, section 6.4.5.
    MinContains,
    /// `maxContains`: Validation, section 6.4.4.
    MaxContains,
    /// `allOf`: Core, section 10.2.1.1.
    AllOf,
    /// `anyOf`: Core, section 10.2.1.2.
    AnyOf,
    /// `oneOf`: Core, section 10.2.1.3.
    OneOf,
    /// `not`: Core, section 10.2.1.4.
    Not,
    /// `if`: Core, section 10.2.2.1.
    If,
    /// `then`: Core, section 10.2.2.2.
    Then,
    /// `else`: Core, section 10.2.2.3.
    Else,
    /// `dependentSchemas`: Core, section 10.2.2.4.
    DependentSchemas,
    /// `$defs`: Core, section 8.2.4.
    Defs,
    /// `$anchor`: Core, section 8.2.2.
    Anchor,
    /// `$ref`: Core, section 8.2.3.1.
    Ref,
    /// `$id`: Core, section 8.2.1.
    Id,
    /// `$schema`: Core, section 8.1.1.
    Dialect,
    /// A keyword that is refused and never ignored, as `$dynamicRef`.
    LeftOut,
    /// Any other name, as `title`: it asserts nothing, and its value isn't looked at.
    Unknown,
}

/// How a keyword's value holds schemas.
#[derive(Clone, Copy, Drop, PartialEq, Eq)]
pub enum Shape {
    /// It holds none.
    Plain,
    /// It is one.
    One,
    /// It is an array of them.
    Several,
    /// It is an object whose members' values are schemas.
    Named,
}

/// How the values of that keyword hold schemas.
pub fn shape_of(keyword: Keyword) -> Shape
    ensures { result ≡ shape_of keyword }
{
    match keyword {
        Keyword::Properties
        | Keyword::PatternProperties
        | Keyword::DependentSchemas
        | Keyword::Defs => Shape::Named,
        Keyword::AdditionalProperties
        | Keyword::PropertyNames
        | Keyword::Items
        | Keyword::Contains
        | Keyword::Not
        | Keyword::If
        | Keyword::Then
        | Keyword::Else => Shape::One,
        Keyword::PrefixItems | Keyword::AllOf | Keyword::AnyOf | Keyword::OneOf => Shape::Several,
        _ => Shape::Plain,
    }
}
