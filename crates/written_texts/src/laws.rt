ghost use Rattle.std.specs.Prelude.{◌≡◌, ◌↔◌, ℕ, Bool, false, IsTrue, List, Option, codes};
ghost use Rattle.schema_values.specs.declared.json_value.Json.{Json as JsonValue};
ghost use Rattle.request_words.specs.declared.pairs.NamedText.{NamedText as Pair};
ghost use Rattle.request_words.specs.declared.request.WireRequest.{WireRequest as Request};
ghost use Rattle.request_words.specs.Pairs.{query_pairs, values_of};
ghost use Rattle.openapi_values.specs.declared.parameter.Parameter.{Parameter};
ghost use Rattle.openapi_values.specs.FormAdmits.{FormAdmits};
ghost use Rattle.openapi_values.specs.Pages.{has_token};
ghost use Rattle.descriptors.specs.declared.desc.Desc.{Desc as Descriptor};
ghost use Rattle.descriptors.specs.declared.desc.Field.{Field as Part};
ghost use Rattle.descriptors.specs.declared.table.Definition.{Definition as Entry};
ghost use Rattle.descriptors.specs.declared.tree.Tree.{Tree as Value};
ghost use Rattle.typed_values.specs.SchemaTable.{schema_json, schema_json_titled};
ghost use Rattle.typed_values.specs.SchemaTable.{schema_json_described};
ghost use Rattle.typed_values.specs.Schemas.{in_header, in_query};
ghost use Rattle.flat_maps.specs.declared.repeats.Repeats.TheVariants.{Refuse};
ghost use Rattle.flat_maps.specs.Flat.{FlatDenotes};
ghost use Rattle.flat_maps.specs.Maps.{map_values};
ghost use Rattle.flat_maps.specs.Pairs.{PairsDenote, last_values};
ghost use Rattle.written_schemas.specs.Reached.{DefinesReached};
ghost use Rattle.written_schemas.specs.Written.{IsWritten};
ghost use Rattle.written_texts.specs.Agrees.{AdmitsTexts};
ghost use Rattle.written_texts.specs.FieldParameters.{AllHold, AllRequired, path_parameters};
ghost use Rattle.written_texts.specs.FieldParameters.{query_parameters, header_parameters};
ghost use Rattle.written_texts.specs.FlatStructs.{IsFlatStruct, DefinesFields};
ghost use Rattle.written_texts.specs.ListedFields.{HeaderShows, IsParameterOf, ListsFields};
ghost use Rattle.written_texts.specs.ListedFields.{PathShows, QueryShows};
ghost use Rattle.header_texts.specs.HeaderTexts.{HeadersDenote};
ghost use Rattle.written_texts.specs.PageParameters.{AreItemCount, HasLimit, NoneNamed, NoneRequired};
ghost use Rattle.written_texts.specs.PageParameters.{PageParametersHold, page_parameters};
ghost use Rattle.handler_shapes.specs.ScalarTypes.{IsScalarType};

/// The schema of a scalar type admits exactly the texts that denote a tree; so it does under a
/// title or a description, and so does the schema that stands in a header or in a query. Of types
/// that are not scalar this does not hold: the schema of an enumeration some of whose variants have
/// values admits the names of the others, but no text denotes a tree under it.
pub fn texts_agree()
    ensures plain { (doc : JsonValue) (table : List Entry) (desc : Descriptor)
        → IsWritten doc table desc
        → IsScalarType table desc → AdmitsTexts doc (schema_json table desc) table desc }
    ensures titled { (doc : JsonValue) (table : List Entry) (desc : Descriptor) (name : List ℕ)
        → IsWritten doc table desc → IsScalarType table desc
        → AdmitsTexts doc (schema_json_titled table name desc) table desc }
    ensures described { (doc : JsonValue) (table : List Entry) (desc : Descriptor)
        (text : Option (List ℕ)) → IsWritten doc table desc → IsScalarType table desc
        → AdmitsTexts doc (schema_json_described table text desc) table desc }
    ensures header { (doc : JsonValue) (table : List Entry) (desc : Descriptor)
        → IsWritten doc table desc → IsScalarType table desc
        → AdmitsTexts doc (schema_json table (in_header desc)) table desc }
    ensures query { (doc : JsonValue) (table : List Entry) (desc : Descriptor)
        → IsWritten doc table desc → IsScalarType table desc
        → AdmitsTexts doc (schema_json table (in_query desc)) table desc }
{}

/// For the fields of a struct one parameter each is listed, in the order of their names, with the
/// field's name and description, required exactly where the field is. Its schema is that of the
/// type which its place shows: in a path the field's own; in a query the reference of an option
/// over one, and else the field's own; in headers what an option is over, and else the field's own.
pub fn fields_are_listed()
    ensures path { (table : List Entry) (fields : List Part)
        → ListsFields (IsParameterOf PathShows (codes "path") table) fields (path_parameters table fields) }
    ensures query { (table : List Entry) (fields : List Part)
        → ListsFields (IsParameterOf QueryShows (codes "query") table) fields (query_parameters table fields) }
    ensures header { (table : List Entry) (fields : List Part)
        → ListsFields (IsParameterOf HeaderShows (codes "header") table) fields (header_parameters table fields) }
{}

/// The parameters of a path that are listed for the fields of a struct, each of which must be
/// there, hold of a request exactly where its variables denote a tree under the struct, whether or
/// not the operation answers in pages. As for all parameters, the document has the schemas of the
/// definitions that the types of the fields reach; that of the struct need not stand there.
pub fn variables_agree()
    ensures { (doc : JsonValue) (table : List Entry) (desc : Descriptor) (fields : List Part)
        → IsFlatStruct table desc fields → DefinesFields doc table fields
        → AllRequired fields → (request : Request) (in_pages : Bool)
        → AllHold doc request in_pages (path_parameters table fields)
        ↔ ((tree : Value)
        × FlatDenotes table desc (map_values (λ value. value) request.variables) tree) }
{}

/// The parameters of a query that are listed for the fields of a struct hold of a request, by the
/// rule of one name at a time, exactly where the pairs of its query denote a tree under the struct,
/// where no field's name stands twice.
pub fn queries_agree()
    ensures { (doc : JsonValue) (table : List Entry) (desc : Descriptor) (fields : List Part)
        → IsFlatStruct table desc fields → DefinesFields doc table fields → (request : Request)
        → AllHold doc request false (query_parameters table fields)
        ↔ ((tree : Value) × PairsDenote table desc Refuse (query_pairs request.query) tree) }
{}

/// Of an operation in pages, whatever its other parameters: those that it lists for what it scans,
/// `limit` and `page_token` hold of a request, and so does what pages ask besides, exactly where
/// `limit` stands at most once, as the number of items that it is, and, in a request for the first
/// page, which has no page token, the last values of its query denote a tree under the struct of
/// what is scanned. Of a request for a later page no more is asked, as the token stands for all of
/// them. No field is named as these two.
pub fn pages_agree()
    ensures first { (doc : JsonValue) (table : List Entry) (desc : Descriptor) (fields : List Part)
        → IsFlatStruct table desc fields → DefinesFields doc table fields
        → NoneNamed (codes "limit") fields
        → (request : Request) (before after : List Parameter)
        → has_token (query_pairs request.query) ≡ false
        → PageParametersHold doc table request before fields after ↔ (HasLimit (query_pairs request.query)
        × ((tree : Value)
        × FlatDenotes table desc (last_values (query_pairs request.query)) tree)) }
    ensures later { (doc : JsonValue) (table : List Entry) (fields : List Part)
        → NoneNamed (codes "limit") fields → NoneNamed (codes "page_token") fields
        → (request : Request) (before after : List Parameter)
        → IsTrue (has_token (query_pairs request.query))
        → PageParametersHold doc table request before fields after
        ↔ HasLimit (query_pairs request.query) }
{}

/// None of the parameters that an operation in pages lists is required, as a request for a later
/// page has a token in the place of the others; and `limit` is allowed not to stand, or to stand once
/// as a whole number from 1 to 4294967295.
pub fn page_parameters_are()
    ensures optional { (table : List Entry) (fields : List Part)
        → NoneRequired (page_parameters table fields) }
    ensures limit { (pairs : List Pair)
        → HasLimit pairs ↔ AreItemCount (values_of (codes "limit") pairs) }
{}

/// The header parameters that are listed for the fields of a struct hold of a request exactly where
/// its header lines denote a tree under the struct, whether or not the operation answers in pages.
pub fn headers_agree()
    ensures { (doc : JsonValue) (table : List Entry) (desc : Descriptor) (fields : List Part)
        → IsFlatStruct table desc fields → DefinesFields doc table fields
        → (request : Request) (in_pages : Bool)
        → AllHold doc request in_pages (header_parameters table fields)
        ↔ ((tree : Value) × HeadersDenote table desc request.headers tree) }
{}

/// The schema of a struct admits exactly the forms whose pairs denote a tree, where no field's name
/// stands twice; so it does under a title or a description. Here the document has the schemas of
/// the definitions that the struct reaches.
pub fn forms_agree()
    ensures plain { (doc : JsonValue) (table : List Entry) (desc : Descriptor) (fields : List Part)
        → IsFlatStruct table desc fields → DefinesReached doc table desc → (pairs : List Pair)
        → FormAdmits doc (schema_json table desc) pairs
        ↔ ((tree : Value) × PairsDenote table desc Refuse pairs tree) }
    ensures titled { (doc : JsonValue) (table : List Entry) (desc : Descriptor) (fields : List Part)
        (name : List ℕ) → IsFlatStruct table desc fields → DefinesReached doc table desc
        → (pairs : List Pair)
        → FormAdmits doc (schema_json_titled table name desc) pairs
        ↔ ((tree : Value) × PairsDenote table desc Refuse pairs tree) }
    ensures described { (doc : JsonValue) (table : List Entry) (desc : Descriptor)
        (fields : List Part) (text : Option (List ℕ)) → IsFlatStruct table desc fields
        → DefinesReached doc table desc → (pairs : List Pair)
        → FormAdmits doc (schema_json_described table text desc) pairs
        ↔ ((tree : Value) × PairsDenote table desc Refuse pairs tree) }
{}
