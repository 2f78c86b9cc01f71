ghost use Rattle.std.specs.Prelude.{◌≡◌, ◌∷◌, ◌++◌, List, [], map, IfOk, OnOk};
ghost use Rattle.schema_values.specs.declared.schema.SchemaObject.{out-SchemaObject};
ghost use Rattle.typed_values.specs.declared.schemas.SchemaPlace.TheVariants.{Plain, Header, Query};
ghost use Rattle.descriptors.specs.declared.table.Definition.{Definition as DefinitionModel};
ghost use Rattle.typed_values.specs.Checks.{TablePasses};
ghost use Rattle.schema_values.specs.Order.{property_name, same_name, sorted_by};
ghost use Rattle.typed_values.specs.SchemaTable.{default_of};
ghost use Rattle.typed_values.specs.Schemas as meant;
ghost use Rattle.typed_values.specs.Schemas.{schema_value, schema_sketch, schema_parts};
ghost use Rattle.typed_values.specs.Schemas.{definition_value, in_header, in_query};

use crate::encode::written;
use crate::schema_names::enumeration_parts;
use crate::schema_parts::{object_of, of_single, with_default, with_description, with_null};
use crate::schema_rows::{
    char_parts, choice_parts, int_parts, list_parts, map_parts, never_parts, ref_parts,
    struct_parts, text_parts,
};
use crate::schema_variants::{external_parts, tagged_parts};
use descriptors::{Definition, Desc, DescTable, Field, Presence};
use schema_values::{
    InstanceType, Json, List, Property, Schema, SchemaObject, Text, copy_text, sort_by_name,
};
use std::alloc::{AllocError, Global};

/// Where a schema stands in a document.
#[derive(Clone, Copy, Debug, PartialEq, Eq)]
pub enum SchemaPlace {
    /// In a body, of a request or of a response.
    Plain,
    /// In a header parameter of a request: an option is written as the schema of what it is over.
    Header,
    /// In a query parameter, or a header of a response: an option over a reference is written as the
    /// reference alone.
    Query,
}

/// The schema of a descriptor. A reference stands as its name; definitions are looked up for defaults alone,
/// which are written as JSON.
pub fn schema_of(
    alloc: Global,
    table: &DescTable,
    desc: &Desc,
    place: SchemaPlace,
) -> Result<Schema, AllocError>
    requires { TablePasses table.now }
    ensures plain { place ≡ Plain → IfOk result (λ schema. schema ≡ schema_value table.now desc.now) }
    ensures header { place ≡ Header
        → IfOk result (λ schema. schema ≡ schema_value table.now (in_header desc.now)) }
    ensures query { place ≡ Query
        → IfOk result (λ schema. schema ≡ schema_value table.now (in_query desc.now)) }
{
    match place {
        SchemaPlace::Plain => schema_at(alloc, table, desc),
        SchemaPlace::Header => schema_at(alloc, table, shown_in_header(desc)),
        SchemaPlace::Query => schema_at(alloc, table, shown_in_query(desc)),
    }
}

/// The descriptor whose schema stands in a header parameter: of an option what it is over.
fn shown_in_header(desc: &Desc) -> &Desc
    ensures { result.now ≡ in_header desc.now }
{
    match desc {
        Desc::Option(inner) => inner.get(),
        _ => desc,
    }
}

/// The descriptor whose schema stands in a query parameter, or in a header of a response: of an option over
/// a reference the reference.
fn shown_in_query(desc: &Desc) -> &Desc
    ensures { result.now ≡ in_query desc.now }
{
    match desc {
        Desc::Option(inner) => match inner.get() {
            Desc::Ref(_) => inner.get(),
            _ => desc,
        },
        _ => desc,
    }
}

/// The schema of a definition of the table, with its description.
pub fn schema_of_definition(
    alloc: Global,
    table: &DescTable,
    definition: &Definition,
) -> Result<Schema, AllocError>
    requires { TablePasses table.now }
    ensures { IfOk result (λ schema. schema ≡ definition_value table.now definition.now) }
{
    let description = copy_text(alloc, &definition.description)?;
    let parts = parts_of(alloc, table, &definition.desc)?;
    object_of(alloc, with_description(alloc, description, parts)?)
}

fn schema_at(alloc: Global, table: &DescTable, desc: &Desc) -> Result<Schema, AllocError>
    requires { TablePasses table.now }
    ensures { IfOk result (λ schema. schema ≡ schema_value table.now desc.now) }
{
    object_of(alloc, parts_of(alloc, table, desc)?)
}

#[cycle(schema)]
pub(crate) fn parts_of(
    alloc: Global,
    table: &DescTable,
    desc: &Desc,
) -> Result<SchemaObject, AllocError>
    requires { TablePasses table.now }
    ensures { IfOk result (λ parts. out-SchemaObject parts ≡ schema_parts table.now desc.now) }
{
    match desc {
        Desc::Any => Ok(SchemaObject::new(alloc)),
        Desc::Never => Ok(never_parts(alloc)),
        Desc::Null => Ok(of_single(alloc, InstanceType::Null)),
        Desc::Bool => Ok(of_single(alloc, InstanceType::Boolean)),
        Desc::Char => Ok(char_parts(alloc)),
        Desc::Int { kind, min, max } => int_parts(alloc, *kind, min, max),
        Desc::Text { min, max, format } => text_parts(alloc, *min, *max, format),
        Desc::Enumeration { names } => enumeration_parts(alloc, names.as_slice()),
        Desc::Option(inner) => with_null(alloc, parts_of(alloc, table, inner.get())?),
        Desc::List { item, min, max } => {
            list_parts(alloc, parts_of(alloc, table, item.get())?, *min, *max)
        }
        Desc::Map(value) => Ok(map_parts(alloc, other_members(alloc, table, value.get())?)),
        Desc::Struct {
            fields,
            deny_unknown,
        } => {
            let fields = fields.as_slice();
            let properties = properties_of(alloc, table, Vec::new(alloc), fields)?;
            object_parts(alloc, properties, fields, *deny_unknown)
        }
        Desc::External { variants } => external_parts(alloc, table, variants.as_slice()),
        Desc::Tagged { tag, variants } => tagged_parts(alloc, table, tag, variants.as_slice()),
        Desc::Untagged { alternatives } => {
            let schemas = schemas_of(alloc, table, alternatives.as_slice())?;
            Ok(choice_parts(alloc, schemas))
        }
        Desc::Ref(name) => ref_parts(alloc, name),
    }
}

/// The schema of the values of a map: a truth value for every value and for none.
#[cycle(schema)]
fn other_members(alloc: Global, table: &DescTable, desc: &Desc) -> Result<Schema, AllocError>
    requires { TablePasses table.now }
    ensures { IfOk result (λ schema. schema ≡ meant.other_members (schema_sketch table.now desc.now)) }
{
    match desc {
        Desc::Any => Ok(Schema::Bool(true)),
        Desc::Never => Ok(Schema::Bool(false)),
        _ => object_of(alloc, parts_of(alloc, table, desc)?),
    }
}

#[cycle(schema)]
fn schemas_of(alloc: Global, table: &DescTable, descs: &[Desc]) -> Result<List<Schema>, AllocError>
    requires { TablePasses table.now }
    ensures { IfOk result (λ schemas.
        schemas ≡ map (λ d. meant.object_of (schema_parts table.now d)) descs.now) }
{
    let mut schemas = List::new(alloc);
    for desc in descs {
        push_schema(alloc, &mut schemas, parts_of(alloc, table, desc)?)?;
    }
    Ok(schemas)
}

fn push_schema(
    alloc: Global,
    schemas: &mut List<Schema>,
    parts: SchemaObject,
) -> Result<(), AllocError>
    ensures { OnOk result (schemas.new ≡ schemas.old ++ meant.object_of (out-SchemaObject parts) ∷ []) }
{
    schemas.push(object_of(alloc, parts)?)
}

/// The parts of an object of some properties and of the names of its required fields.
fn object_parts(
    alloc: Global,
    properties: List<Property>,
    fields: &[Field],
    deny_unknown: bool,
) -> Result<SchemaObject, AllocError>
    ensures { (table : List DefinitionModel) → IfOk result (λ parts. out-SchemaObject parts
        ≡ meant.struct_of properties (sorted_by same_name
        (meant.required_names (map (meant.sketch_of_field table) fields.now))) deny_unknown) }
{
    let required = required_names(alloc, Vec::new(alloc), fields)?;
    Ok(struct_parts(alloc, properties, required, deny_unknown))
}

/// Some properties and those of fields, in the order of their names.
#[cycle(schema)]
pub(crate) fn properties_of(
    alloc: Global,
    table: &DescTable,
    mut properties: Vec<Property>,
    fields: &[Field],
) -> Result<List<Property>, AllocError>
    requires { TablePasses table.now }
    ensures { IfOk result (λ all. all ≡ sorted_by property_name (properties.items
        ++ map (meant.property_of table.now) (map (meant.sketch_of_field table.now) fields.now))) }
{
    for field in fields {
        let annotations = annotations_of(alloc, table, field)?;
        let parts = parts_of(alloc, table, &field.desc)?;
        push_property(alloc, &mut properties, &field.name, annotations, parts)?;
    }
    in_order(properties)
}

/// Some properties in the order of their names.
fn in_order(mut properties: Vec<Property>) -> Result<List<Property>, AllocError>
    ensures { IfOk result (λ all. all ≡ sorted_by property_name properties.items) }
{
    sort_by_name(&mut properties)?;
    Ok(List::from_vec(properties))
}

/// What a property says beside the parts that its values meet.
#[derive(Drop)]
struct Annotations {
    description: Option<Text>,
    default: Option<Json>,
}

fn annotations_of(
    alloc: Global,
    table: &DescTable,
    field: &Field,
) -> Result<Annotations, AllocError>
    requires { TablePasses table.now }
    ensures description { IfOk result (λ annotations. annotations.description ≡ field.now.description) }
    ensures default { IfOk result (λ annotations.
        annotations.default ≡ default_of table.now field.now.presence field.now.desc) }
{
    let description = copy_text(alloc, &field.description)?;
    let default = default_json(alloc, table, &field.presence, &field.desc)?;
    Ok(Annotations {
        description,
        default,
    })
}

/// Adds the property of a field behind others.
fn push_property(
    alloc: Global,
    properties: &mut Vec<Property>,
    name: &Text,
    annotations: Annotations,
    parts: SchemaObject,
) -> Result<(), AllocError>
    ensures { OnOk result (properties.new.items ≡ properties.old.items ++ meant.property name.now
        (meant.with_default annotations.default (meant.with_description annotations.description
        (out-SchemaObject parts))) ∷ []) }
{
    let Annotations {
        description,
        default,
    } = annotations;
    let parts = with_description(alloc, description, parts)?;
    let parts = with_default(alloc, default, parts)?;
    properties.push(property(alloc, name, parts)?)?;
    Ok(())
}

/// The JSON of the value that an absent field has.
fn default_json(
    alloc: Global,
    table: &DescTable,
    presence: &Presence,
    desc: &Desc,
) -> Result<Option<Json>, AllocError>
    requires { TablePasses table.now }
    ensures { IfOk result (λ json. json ≡ default_of table.now presence.now desc.now) }
{
    match presence {
        Presence::Required | Presence::Nullable | Presence::Skipped => Ok(None),
        Presence::Default(tree) => Ok(Some(written(alloc, table, desc, tree)?)),
    }
}

pub(crate) fn property(
    alloc: Global,
    name: &Text,
    parts: SchemaObject,
) -> Result<Property, AllocError>
    ensures { IfOk result (λ property. property ≡ meant.property name.now (out-SchemaObject parts)) }
{
    let schema = object_of(alloc, parts)?;
    Ok(Property {
        name: name.copy(alloc)?,
        schema,
    })
}

/// Some names and those of the fields that must be there, in order.
pub(crate) fn required_names(
    alloc: Global,
    mut names: Vec<Text>,
    fields: &[Field],
) -> Result<List<Text>, AllocError>
    ensures { (table : List DefinitionModel) → IfOk result (λ all. all ≡ sorted_by same_name
        (names.items ++ meant.required_names (map (meant.sketch_of_field table) fields.now))) }
{
    for field in fields {
        if let Presence::Required = field.presence {
            names.push(field.name.copy(alloc)?)?;
        }
    }
    sort_by_name(&mut names)?;
    Ok(List::from_vec(names))
}
