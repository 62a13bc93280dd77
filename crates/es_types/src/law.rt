//! What is true of the values of every document.
ghost use Rattle.std.specs.Prelude.{◌≡◌, List, Ok};
ghost use Rattle.es_types.specs.declared.doc.Member.{Member};
ghost use Rattle.es_types.specs.declared.mapping.Field.{Field};
ghost use Rattle.es_types.specs.declared.row.Value.{Value};
ghost use Rattle.es_types.specs.Fields.{fit};
ghost use Rattle.es_types.specs.Values.{AreValuesOf};

/// The values that a document gives a mapping are one for each field, in the order of the fields, of the field's kind or missing.
pub fn fit_gives_values()
    ensures { (mapping : List Field) (members : List Member) (values : List Value) → fit mapping members ≡ Ok values → AreValuesOf mapping values }
{}
