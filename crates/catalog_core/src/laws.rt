//! The laws of schemas and dictionaries. The calls do nothing: their contracts are the laws.

ghost use Rattle.catalog_core.specs.Schemas.{OneSchema};

/// The text of a schema file has one answer at most: a schema, or its first refusal.
pub fn one_schema()
    ensures { OneSchema }
{}
