//! The first cause that stands against an endpoint.
ghost use Rattle.std.specs.Prelude.{◌≡◌, ◌++◌, All, IfNone, IfOk, MatchOption, codes, map};
ghost use Rattle.std.specs.Option.{option_copied};
ghost use Rattle.handler_shapes.specs.ShapeLengths.{ShapeHasShortLengths};
ghost use Rattle.path_templates.specs.Segments.{segments_of};
ghost use Rattle.endpoint_parameters.specs.Parameters.{parameters};
ghost use Rattle.endpoint_parameters.specs.Told.{IsTried, SaysFirst, quoted};
ghost use Rattle.endpoint_parameters.specs.ParameterTypes.{IsNoScalar, IsNoStringList};
ghost use Rattle.endpoint_parameters.specs.ParameterTypes.{IsScalarOrRest};
ghost use Rattle.endpoint_checks.specs.EndpointIndexes.{IsIndexed};
ghost use Rattle.api_registration.specs.Registering.{Clears, MayRegister, RefusedBy, Tells};

use crate::cause::{CAUSES, RegisterCause};
use crate::error::ApiDescriptionRegisterError;
use api_declarations::{Declaration, Declared};
use endpoint_checks::{
    EndpointIndex, at_least_one_told, bad_form_told, bad_method_told, bad_pagination_told,
    bad_success_code_told, bad_template_told, definition_clash_told, exactly_one_told,
    invalid_tag_told, mismatch_told, no_error_schema_told, path_clash_told, two_bodies_told,
    unsupported_schema_told, visible_wildcard_told, wildcard,
};
use endpoint_parameters::{
    BadHeaderName, Doubled, InBoth, MayBeAbsent, NotScalar, NotStringList, Parameter, parameters,
    tell_first,
};
use path_templates::Template;
use schema_values::Text;
use std::alloc::{AllocError, Global};
use tag_config::TagConfig;

// An endpoint that is to stand behind others, and what is looked at to find what stands against it.
#[derive(Drop)]
struct Candidate<'s, 'd, E> {
    config: &'s TagConfig,
    before: &'s [E],
    index: &'s EndpointIndex,
    endpoint: &'s Declaration<'d>,
    template: &'s Option<Template>,
    parameters: &'s [Parameter<'d>],
}

impl<'s, 'd, E: Declared> Candidate<'s, 'd, E> {
    // What a cause is told as, where it stands against the endpoint behind those before it.
    fn told(&self, alloc: Global, cause: RegisterCause) -> Result<Option<Text>, AllocError>
        requires index { IsIndexed (map E.declared self.now.before.now) self.now.index.now }
        requires template { self.now.template.now ≡ segments_of self.now.endpoint.now.path }
        requires parameters { self.now.parameters.now ≡ parameters self.now.endpoint.now.shape }
        ensures told { IfOk result (IsTried (Tells self.now.config.now
            (map E.declared self.now.before.now) self.now.endpoint.now cause)) }
        ensures clear { IfOk result (λ told. IfNone told (Clears self.now.endpoint.now cause)) }
        ensures lengths { cause ≡ RegisterCause.UnsupportedSchema → IfOk result
            (λ told. IfNone told (ShapeHasShortLengths self.now.endpoint.now.shape)) }
    {
        let (before, index, endpoint) = (self.before, self.index, self.endpoint);
        let (template, parameters) = (self.template, self.parameters);
        let wildcard = wildcard(template);
        match cause {
            RegisterCause::AtLeastOneTag => at_least_one_told(alloc, self.config, endpoint),
            RegisterCause::ExactlyOneTag => exactly_one_told(alloc, self.config, endpoint),
            RegisterCause::InvalidTag => invalid_tag_told(alloc, self.config, endpoint),
            RegisterCause::BadTemplate => bad_template_told(alloc, template, endpoint),
            RegisterCause::BadMethod => bad_method_told(alloc, endpoint),
            RegisterCause::PathMismatch => mismatch_told(alloc, template, parameters, endpoint),
            RegisterCause::PathNotRequired => tell_first(alloc, &MayBeAbsent, parameters),
            RegisterCause::NotScalar => not_scalar_told(alloc, endpoint, wildcard, parameters),
            RegisterCause::NotStringList => not_list_told(alloc, endpoint, wildcard, parameters),
            RegisterCause::QueryAndPath => tell_first(alloc, &InBoth(parameters), parameters),
            RegisterCause::DoubledParameter => tell_first(alloc, &Doubled(parameters), parameters),
            RegisterCause::BadHeaderName => tell_first(alloc, &BadHeaderName, parameters),
            RegisterCause::VisibleWildcard => visible_wildcard_told(alloc, wildcard, endpoint),
            RegisterCause::UnsupportedSchema => unsupported_schema_told(alloc, endpoint),
            RegisterCause::TwoBodies => two_bodies_told(alloc, endpoint),
            RegisterCause::BadBodyForm => bad_form_told(alloc, endpoint),
            RegisterCause::BadPagination => bad_pagination_told(alloc, endpoint),
            RegisterCause::BadSuccessCode => bad_success_code_told(alloc, endpoint),
            RegisterCause::NoErrorSchema => no_error_schema_told(alloc, endpoint),
            RegisterCause::PathClash => path_clash_told(alloc, before, index, template, endpoint),
            RegisterCause::DefinitionClash => definition_clash_told(alloc, before, index, endpoint),
        }
    }
}

fn not_scalar_told(
    alloc: Global,
    endpoint: &Declaration<'_>,
    wildcard: Option<&Text>,
    parameters: &[Parameter<'_>],
) -> Result<Option<Text>, AllocError>
    ensures clear { IfOk result (λ told. IfNone told (All (IsScalarOrRest endpoint.now.shape.table
        (option_copied wildcard.entry)) parameters.now)) }
    ensures told { IfOk result (IsTried (SaysFirst parameters.now
        (IsNoScalar endpoint.now.shape.table (option_copied wildcard.entry))
        (quoted (codes "for endpoint " ++ endpoint.now.operation_id ++ codes " the parameter ")
        (codes " must have a scalar type")))) }
{
    let not_scalar = NotScalar {
        operation_id: endpoint.operation_id,
        table: &endpoint.shape.table,
        wildcard,
    };
    tell_first(alloc, &not_scalar, parameters)
}

fn not_list_told(
    alloc: Global,
    endpoint: &Declaration<'_>,
    wildcard: Option<&Text>,
    parameters: &[Parameter<'_>],
) -> Result<Option<Text>, AllocError>
    ensures { IfOk result (IsTried (SaysFirst parameters.now
        (IsNoStringList endpoint.now.shape.table (option_copied wildcard.entry))
        (quoted (codes "the parameter ") (codes " must be an array of strings")))) }
{
    let not_list = NotStringList {
        table: &endpoint.shape.table,
        wildcard,
    };
    tell_first(alloc, &not_list, parameters)
}

/// The error that tells the first cause that stands against an endpoint behind those before it, if
/// any does. Where none stands, the lengths in its shape have 32 bits. The index is that of those
/// before it, as `EndpointIndex::add` keeps it. Fails only for want of memory.
///
/// Of those before it, none is looked at but those that have a place in the index: at the shape of
/// the endpoint's template, where the template of one that serves its method beside it is read
/// again, and at the name of a definition in its table, where this definition alone is compared.
pub fn first_cause<E: Declared>(
    alloc: Global,
    config: &TagConfig,
    before: &[E],
    index: &EndpointIndex,
    endpoint: &Declaration<'_>,
) -> Result<Option<ApiDescriptionRegisterError>, AllocError>
    requires { IsIndexed (map E.declared before.now) index.now }
    ensures first { IfOk result (λ refusal. MatchOption refusal
        (MayRegister config.now (map E.declared before.now) endpoint.now)
        (RefusedBy config.now (map E.declared before.now) endpoint.now)) }
    ensures lengths { IfOk result (λ refusal. IfNone refusal
        (ShapeHasShortLengths endpoint.now.shape)) }
{
    let template = Template::parse(alloc, endpoint.path)?;
    let parameters = parameters(alloc, endpoint.shape)?;
    let candidate = Candidate {
        config,
        before,
        index,
        endpoint,
        template: &template,
        parameters: parameters.as_slice(),
    };
    for cause in CAUSES.iter() {
        if let Some(message) = candidate.told(alloc, *cause)? {
            return Ok(Some(ApiDescriptionRegisterError {
                operation_id: endpoint.operation_id.copy(alloc)?,
                message,
                cause: *cause,
            }));
        }
    }
    Ok(None)
}
