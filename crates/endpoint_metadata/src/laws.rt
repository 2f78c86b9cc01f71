//! What is listed of slots is what a document shows, and what requests are read by.
ghost use Rattle.std.specs.Prelude.{◌≡◌, List, Some, filter_map};
ghost use Rattle.descriptors.specs.declared.desc.Desc.{Desc as Descriptor};
ghost use Rattle.descriptors.specs.declared.desc.Field.{Field as Part};
ghost use Rattle.descriptors.specs.declared.table.Definition.{Definition as Entry};
ghost use Rattle.request_parts.specs.declared.content_type.ApiEndpointBodyContentType as kinds;
ghost use Rattle.handler_shapes.specs.declared.slot.Slot.{Slot as OneSlot};
ghost use Rattle.handler_shapes.specs.SlotFields.{struct_fields};
ghost use Rattle.endpoint_metadata.specs.Parameters.{listed_parameters};
ghost use Rattle.endpoint_metadata.specs.Shown.{documented_bodies, documented_parameters};
ghost use Rattle.endpoint_metadata.specs.Shown.{shown, shown_body};
ghost use Rattle.endpoint_metadata.specs.Structs.{listed_fields};

use written_schemas::schemas_written;

/// The parameters of slots show as those of a document, one by one, and their bodies as its bodies.
pub fn parameters_are_shown()
    ensures parameters { (kind : kinds.ApiEndpointBodyContentType) (table : List Entry)
        (slots : List OneSlot) → filter_map shown (listed_parameters kind table slots)
        ≡ documented_parameters table slots }
    ensures bodies { (kind : kinds.ApiEndpointBodyContentType) (table : List Entry)
        (slots : List OneSlot) → filter_map shown_body (listed_parameters kind table slots)
        ≡ documented_bodies kind table slots }
{
    schemas_written();
}

/// Of a struct that takes unknown names the fields are listed that requests are read by.
pub fn listed_fields_are_read()
    ensures { (table : List Entry) (desc : Descriptor) (fields : List Part)
        → struct_fields table desc ≡ Some fields → listed_fields table desc ≡ fields }
{}
