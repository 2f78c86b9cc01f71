//! The values of Rust types that the arguments of a request convert to. `"types"` names the types
//! of the arguments; the head of the request stands under `"request"`, as requests.rt of
//! `endpoint_notation` says, and its content as pieces.rt does.
ghost use Rattle.std.specs.Prelude.{◌≡◌};
ghost use Rattle.api_types.specs.Types.{HoldsAll};
ghost use Rattle.typed_extractors.specs.SlotAdditions.{HaveTables};
ghost use Rattle.typed_extractors.specs.Taken.{AreTaken};

use crate::content::content_at;
use crate::pieces::{Pieces, pieces_of};
use crate::told::Told;
use crate::types::LinePoint;
use api_extract::{ExtractError, extract_from};
use body_reading::StreamingBody;
use case_notation::{CaseError, Record, check_names, given_text};
use endpoint_notation::{are_served, error_told, parts_of, reading_of};
use handler_shapes::{ArgList, Slot};
use own_types::{Color, Pin, Point, Span};
use request_parts::RequestParts;
use result_pages::EmptyScanParams;
use schema_values::{Json, List, Scratch};
use std::alloc::Global;
use typed_extractors::{Header, PagedQuery, Path, Query, RequestExtractor, TypedBody, UntypedBody};
use typed_values::{AddError, DescTable};

/// What comes of the request of a case for the types of its arguments, and how many bytes of its
/// content were not read.
pub fn arguments_told(alloc: Global, case: &Json) -> Result<Json, CaseError> {
    let content = content_at(alloc, case)?;
    told_of(alloc, case, content.as_slice())
}

fn told_of(alloc: Global, case: &Json, content: &[u8]) -> Result<Json, CaseError> {
    let mut source = pieces_of(case, content)?;
    let told = outcome_of(alloc, case, &mut source)?;
    told.number("unread", source.unread().into()).done()
}

fn outcome_of(alloc: Global, case: &Json, source: &mut Pieces<'_>) -> Result<Record, CaseError> {
    let types = given_text(case, "types")?;
    let request = request_of(alloc, case)?;
    outcome_for(alloc, case, types.as_str(), &request, source)
}

// A copy of the request of a case.
fn request_of(alloc: Global, case: &Json) -> Result<Box<RequestParts>, CaseError> {
    let noted = case.get("request").unwrap_or(&Json::Null);
    if case.get("request").is_some() {
        check_names(noted, &["uri", "variables", "headers"])?;
    }
    let request = Box::new(alloc, parts_of(alloc, case, noted)?)?;
    copied(alloc, &request)
}

fn copied(alloc: Global, request: &RequestParts) -> Result<Box<RequestParts>, CaseError> {
    Ok(Box::new(alloc, request.copy(alloc)?)?)
}

fn outcome_for(
    alloc: Global,
    case: &Json,
    types: &str,
    request: &RequestParts,
    source: &mut Pieces<'_>,
) -> Result<Record, CaseError> {
    match types {
        "path" => outcome::<(Path<Point>,)>(alloc, case, request, source),
        "query" => outcome::<(Query<Span>,)>(alloc, case, request, source),
        "header" => outcome::<(Header<Point>,)>(alloc, case, request, source),
        "body" => outcome::<(TypedBody<Point>,)>(alloc, case, request, source),
        "closed body" => outcome::<(TypedBody<Pin>,)>(alloc, case, request, source),
        "bytes" => outcome::<(UntypedBody,)>(alloc, case, request, source),
        "stream" => outcome::<(StreamingBody,)>(alloc, case, request, source),
        "pages" => outcome::<(PagedQuery<Span, Point>,)>(alloc, case, request, source),
        several => outcome_for_several(alloc, case, several, request, source),
    }
}

fn outcome_for_several(
    alloc: Global,
    case: &Json,
    types: &str,
    request: &RequestParts,
    source: &mut Pieces<'_>,
) -> Result<Record, CaseError> {
    match types {
        "nothing" => outcome::<()>(alloc, case, request, source),
        "two" => outcome::<(Path<Span>, TypedBody<Point>)>(alloc, case, request, source),
        "three" => outcome::<(Path<Span>, Query<Point>, UntypedBody)>(alloc, case, request, source),
        "four" => outcome::<(Path<Span>, Query<Point>, Header<Span>, StreamingBody)>(
            alloc, case, request, source,
        ),
        "five" => outcome::<
            (
                Path<Span>,
                PagedQuery<EmptyScanParams, Color>,
                Header<Span>,
                Header<Point>,
                TypedBody<Pin>,
            ),
        >(alloc, case, request, source),
        "clash" => outcome::<(Path<Point>, Query<LinePoint>)>(alloc, case, request, source),
        _ => Err(CaseError::Expected("the types of arguments")),
    }
}

// What comes of a request, or the name of the first definition that clashes.
fn outcome<X: RequestExtractor + Told>(
    alloc: Global,
    case: &Json,
    request: &RequestParts,
    source: &mut Pieces<'_>,
) -> Result<Record, CaseError> {
    let mut table = DescTable::new(alloc);
    match X::slots(alloc, &mut table) {
        Ok(slots) => served::<X>(alloc, case, &table, &slots, request, source),
        Err(AddError::Clash(name)) => Ok(Record::new(alloc).text("clash", name.as_str())),
        Err(AddError::OutOfMemory) => Err(CaseError::OutOfMemory),
    }
}

fn served<X: RequestExtractor + Told>(
    alloc: Global,
    case: &Json,
    table: &DescTable,
    slots: &List<Slot>,
    request: &RequestParts,
    source: &mut Pieces<'_>,
) -> Result<Record, CaseError>
    requires slots { slots.now ≡ X.slots_of }
    requires held { HoldsAll table.now X.definitions_of }
    requires tables { HaveTables X.selectors_of }
{
    if !are_served(table, slots.as_slice()) {
        return Err(CaseError::Expected("types that can be served"));
    }
    let reading = reading_of(alloc, case)?;
    match extract_from(
        alloc,
        &mut Scratch::new(alloc),
        slots,
        table,
        request,
        reading.kind,
        source,
        reading.limit,
        reading.budget,
    ) {
        Ok(args) => converted::<X>(alloc, args, reading.calls),
        Err(error) => refused(alloc, &error),
    }
}

fn converted<X: RequestExtractor + Told>(
    alloc: Global,
    args: ArgList,
    calls: u64,
) -> Result<Record, CaseError>
    requires { AreTaken X.slots_of X.definitions_of X.selectors_of args }
{
    let mut args = args.into_vec();
    let value = X::from_args(alloc, args.as_mut_slice())?;
    let told = Record::new(alloc).text("outcome", "denoted");
    Ok(told.put("args", value.told(alloc, calls)))
}

fn refused(alloc: Global, error: &ExtractError) -> Result<Record, CaseError> {
    error_told(alloc, &error.copy(alloc)?)
}
