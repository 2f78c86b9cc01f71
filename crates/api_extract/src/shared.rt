// The arguments of a path, a query and headers.
ghost use Rattle.std.specs.Prelude.{◌≡◌, false, All};
ghost use Rattle.typed_values.specs.Checks.{TablePasses, DescPasses};
ghost use Rattle.handler_shapes.specs.BodySlots.{takes_body};
ghost use Rattle.handler_shapes.specs.ShapeChecks.{SlotPasses, SlotsPass};
ghost use Rattle.api_extract.specs.Answers.{IsGiven, IsTold};
ghost use Rattle.api_extract.specs.Denotes.{args_by};
ghost use Rattle.api_extract.specs.Extraction.{plainly_told};
ghost use Rattle.request_parts.specs.Wire.{query_text};
ghost use Rattle.request_words.specs.Pairs.{query_pairs};
ghost use Rattle.flat_maps.specs.declared.repeats.Repeats.TheVariants.{Refuse};
ghost use Rattle.flat_maps.specs.Pairs.{pairs_told};

use crate::extract_error::ExtractError;
use crate::pages::decode_page_query;
use crate::queries::pairs_of;
use crate::refusals::tree_argument;
use flat_maps::{Repeats, decode_map, decode_pairs};
use handler_shapes::{Arg, ArgList, Slot};
use header_texts::decode_headers;
use request_parts::RequestParts;
use schema_values::List;
use std::alloc::Global;
use typed_values::{DecodeError, Desc, DescTable, Tree};

/// One argument for each slot in order, or the refusal of the first that denotes nothing. None of
/// the slots takes the body.
pub(crate) fn shared_arguments(
    alloc: Global,
    table: &DescTable,
    request: &RequestParts,
    slots: &[Slot],
) -> Result<ArgList, ExtractError>
    requires table { TablePasses table.now }
    requires slots { SlotsPass table.now slots.now }
    requires shared { All (λ slot. takes_body slot ≡ false) slots.now }
    ensures { IsGiven result (args_by (plainly_told table.now request.now) slots.now) }
{
    let mut args = List::new(alloc);
    for slot in slots {
        let arg = shared_argument(alloc, table, request, slot)?;
        args.push(arg)?;
    }
    Ok(args)
}

fn shared_argument(
    alloc: Global,
    table: &DescTable,
    request: &RequestParts,
    slot: &Slot,
) -> Result<Arg, ExtractError>
    requires table { TablePasses table.now }
    requires slot { SlotPasses table.now slot.now }
    requires shared { takes_body slot.now ≡ false }
    ensures { IsGiven result (plainly_told table.now request.now slot.now) }
{
    match slot {
        Slot::Path(desc) => {
            let answer = decode_map(alloc, table, desc, &request.variables);
            tree_argument(alloc, "bad parameter in URL path: ", answer)
        }
        Slot::Query(desc) => {
            let answer = decode_query(alloc, table, desc, request);
            tree_argument(alloc, "unable to parse query string: ", answer)
        }
        Slot::Header(desc) => {
            let answer = decode_headers(alloc, table, desc, request.info.headers());
            tree_argument(alloc, "error processing headers: ", answer)
        }
        Slot::PagedQuery {
            scan,
            selector,
            selector_table,
        } => {
            let pairs = pairs_of(alloc, request)?;
            let answer = decode_page_query(alloc, table, scan, selector_table, selector, &pairs);
            tree_argument(alloc, "unable to parse query string: ", answer)
        }
        _ => unreachable!(),
    }
}

fn decode_query(
    alloc: Global,
    table: &DescTable,
    desc: &Desc,
    request: &RequestParts,
) -> Result<Tree, DecodeError>
    requires table { TablePasses table.now }
    requires desc { DescPasses table.now desc.now }
    ensures { IsTold result
        (pairs_told table.now Refuse (query_pairs (query_text request.now.info.uri)) desc.now) }
{
    let pairs = pairs_of(alloc, request)?;
    decode_pairs(alloc, table, desc, &pairs, Repeats::Refuse)
}
