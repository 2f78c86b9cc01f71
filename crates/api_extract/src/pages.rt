// The page and the limit that a query denotes.
ghost use Rattle.std.specs.Prelude.{◌≡◌, [], ◌∷◌, IfOk, Ok, Some, codes};
ghost use Rattle.std.specs.declared.result.Result.TheVariants.{Err};
ghost use Rattle.std.specs.Str.{encode_utf8_all};
ghost use Rattle.request_words.specs.Pairs.{last_value, values_of};
ghost use Rattle.flat_maps.specs.declared.repeats.Repeats.TheVariants.{Last};
ghost use Rattle.flat_maps.specs.Pairs.{pairs_told};
ghost use Rattle.typed_values.specs.Checks.{TablePasses, DescPasses};
ghost use Rattle.api_extract.specs.Answers.{IsTold};
ghost use Rattle.api_extract.specs.PageQueries.{as_choice, bytes_told, doubled_limit};
ghost use Rattle.api_extract.specs.PageQueries.{limit_told, limit_value, page_query_told, page_told};

use crate::queries::last_named;
use crate::refusals::whole_fault;
use flat_maps::{Repeats, decode_pairs, number_of_text};
use page_tokens::{TokenError, read_token};
use request_words::{NamedText, has_pair};
use schema_values::{Boxed, List, Text};
use std::alloc::{AllocError, Global};
use typed_values::{DecodeError, Desc, DescTable, FaultKind, IntKind, Stop, Tree};

/// Decodes the pairs of a query in pages: `Fields` of the page, `Variant` 0 of what is scanned or
/// `Variant` 1 of the selector of a token, and of the limit.
pub(crate) fn decode_page_query(
    alloc: Global,
    table: &DescTable,
    scan: &Desc,
    selector_table: &DescTable,
    selector: &Desc,
    pairs: &List<NamedText>,
) -> Result<Tree, DecodeError>
    requires table { TablePasses table.now }
    requires scan { DescPasses table.now scan.now }
    requires selector_table { TablePasses selector_table.now }
    requires selector { DescPasses selector_table.now selector.now }
    ensures { IsTold result (page_query_told (record {
      table = table.now;
      scan = scan.now;
      selector_table = selector_table.now;
      selector = selector.now;
    }) pairs.now) }
{
    let limit = decode_limit(alloc, pairs.as_slice())?;
    let page = decode_page(alloc, table, scan, selector_table, selector, pairs)?;
    Ok(page_beside(alloc, page, limit)?)
}

// The page: a later one where the query has a token, else the first.
fn decode_page(
    alloc: Global,
    table: &DescTable,
    scan: &Desc,
    selector_table: &DescTable,
    selector: &Desc,
    pairs: &List<NamedText>,
) -> Result<Tree, DecodeError>
    requires table { TablePasses table.now }
    requires scan { DescPasses table.now scan.now }
    requires selector_table { TablePasses selector_table.now }
    requires selector { DescPasses selector_table.now selector.now }
    ensures { IsTold result (page_told (record {
      table = table.now;
      scan = scan.now;
      selector_table = selector_table.now;
      selector = selector.now;
    }) pairs.now (last_value (codes "page_token") pairs.now)) }
{
    match last_named(pairs.as_slice(), "page_token") {
        Some((pair, _)) => decode_later_page(alloc, selector_table, selector, &pair.value),
        None => decode_first_page(alloc, table, scan, pairs),
    }
}

// The page and the limit.
fn page_beside(alloc: Global, page: Tree, limit: Tree) -> Result<Tree, AllocError>
    ensures { IfOk result (λ tree. tree ≡ Tree.Fields (page ∷ limit ∷ [])) }
{
    let mut parts = List::new(alloc);
    parts.push(page)?;
    parts.push(limit)?;
    Ok(Tree::Fields(parts))
}

// The limit, where the query gives one; where it gives none, no memory is taken.
fn decode_limit(alloc: Global, pairs: &[NamedText]) -> Result<Tree, DecodeError>
    ensures told { IsTold result (limit_told pairs.now) }
    ensures absent { values_of (codes "limit") pairs.now ≡ [] → result ≡ Ok Tree.None }
{
    let Some((pair, earlier)) = last_named(pairs, "limit") else {
        return Ok(Tree::None);
    };
    if has_pair(earlier, "limit") {
        return Err(doubled_limit(alloc));
    }
    limit_of(alloc, &pair.value)
}

fn doubled_limit(alloc: Global) -> DecodeError
    ensures { IsTold (Err result) doubled_limit }
{
    match Text::from_ascii(alloc, "limit") {
        Ok(name) => Stop::doubled(alloc, &name)
            .below_name(alloc, &name)
            .into_error(alloc),
        Err(_) => DecodeError::OutOfMemory,
    }
}

// A whole number from 1 to 4294967295.
fn limit_of(alloc: Global, text: &Text) -> Result<Tree, DecodeError>
    ensures { IsTold result (limit_value (Some text.now)) }
{
    match number_of_text(alloc, IntKind::U32, Some(1), None, text.as_str()) {
        Ok(number) => Ok(Tree::Some(Boxed::new(alloc, number)?)),
        Err(Stop::Misfit(_)) => Err(whole_fault(alloc, FaultKind::BadLimit)),
        Err(Stop::OutOfMemory) => Err(DecodeError::OutOfMemory),
    }
}

// The first page: of each name that is scanned the last value counts.
fn decode_first_page(
    alloc: Global,
    table: &DescTable,
    scan: &Desc,
    pairs: &List<NamedText>,
) -> Result<Tree, DecodeError>
    requires table { TablePasses table.now }
    requires scan { DescPasses table.now scan.now }
    ensures { IsTold result (as_choice 0 (pairs_told table.now Last pairs.now scan.now)) }
{
    let tree = decode_pairs(alloc, table, scan, pairs, Repeats::Last)?;
    Ok(Tree::Variant(0, Boxed::new(alloc, tree)?))
}

// A later page, by the token of the one before.
fn decode_later_page(
    alloc: Global,
    selector_table: &DescTable,
    selector: &Desc,
    token: &Text,
) -> Result<Tree, DecodeError>
    requires table { TablePasses selector_table.now }
    requires selector { DescPasses selector_table.now selector.now }
    ensures { IsTold result (as_choice 1
        (bytes_told selector_table.now selector.now (encode_utf8_all token.now))) }
{
    let tree = decode_token(alloc, selector_table, selector, token.as_str())?;
    Ok(Tree::Variant(1, Boxed::new(alloc, tree)?))
}

// What a token reads as.
fn decode_token(
    alloc: Global,
    selector_table: &DescTable,
    selector: &Desc,
    token: &str,
) -> Result<Tree, DecodeError>
    requires table { TablePasses selector_table.now }
    requires selector { DescPasses selector_table.now selector.now }
    ensures { IsTold result (bytes_told selector_table.now selector.now token.now) }
{
    match read_token(alloc, selector_table, selector, token) {
        Ok(tree) => Ok(tree),
        Err(TokenError::TooLarge(_)) => Err(whole_fault(alloc, FaultKind::TokenTooLarge)),
        Err(TokenError::NotBase64) => Err(whole_fault(alloc, FaultKind::TokenNotBase64)),
        Err(TokenError::Corrupted) => Err(whole_fault(alloc, FaultKind::TokenCorrupted)),
        Err(TokenError::OutOfMemory) => Err(DecodeError::OutOfMemory),
    }
}
