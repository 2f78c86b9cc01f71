//! Calls on pages of results and their types.
ghost use Rattle.typed_values.specs.Checks.{TablePasses, DescPasses};

use crate::errors::error_noted;
use crate::field_names::{Prev, S};
use crate::single::Single;
use api_types::{ApiType, table_of};
use case_notation::{
    CaseError, Record, Row, given, given_items, given_number, labelled, number_of, text_or_null,
    tree_noted,
};
use http_status::HttpRefusal;
use page_tokens::read_token;
use result_pages::ResultsPage;
use schema_values::{Json, List, Text};
use std::alloc::{AllocError, Global};
use typed_values::{Desc, DescTable};

/// A selector of a page: a number that the next page begins behind.
type Previous = Single<Prev, u64>;

/// A selector of a page: a text that the next page begins behind.
type Start = Single<S, Text>;

/// A page of the numbers of a case, whose selector is the sum of the last and that of the scan.
pub fn page_told(alloc: Global, case: &Json) -> Result<Json, CaseError> {
    let Ok(_) = table_of::<Previous>(alloc) else {
        return Err(CaseError::Expected("a type that passes its checks"));
    };
    let scan = natural(given(case, "scan")?)?;
    let items = naturals(alloc, given_items(case, "items")?)?;
    let page = ResultsPage::new(alloc, items, &scan, |_: Global, last: &u64, scan: &u64| {
        previous(*last, *scan)
    });
    match page {
        Ok(page) => page_noted(alloc, &page),
        Err(refusal) => refused(alloc, &refusal),
    }
}

fn previous(last: u64, scan: u64) -> Result<Previous, AllocError> {
    match last.checked_add(scan) {
        Some(prev) => Ok(Single::new(prev)),
        None => Err(AllocError),
    }
}

fn natural(noted: &Json) -> Result<u64, CaseError> {
    u64::try_from(number_of(noted)?)
        .ok()
        .ok_or(CaseError::Expected("a number of 64 bits"))
}

fn naturals(alloc: Global, noted: &[Json]) -> Result<List<u64>, CaseError> {
    let mut numbers = List::new(alloc);
    for number in noted {
        numbers.push(natural(number)?)?;
    }
    Ok(numbers)
}

// The token of a page and its items, and the selector that the token is read as.
fn page_noted(alloc: Global, page: &ResultsPage<u64>) -> Result<Json, CaseError> {
    let noted = Record::new(alloc)
        .put("next_page", text_or_null(alloc, &page.next_page))
        .put("items", numbers_noted(alloc, page.items.as_slice()));
    match &page.next_page {
        Some(token) => noted.put("selector", selector_noted(alloc, token)).done(),
        None => noted.done(),
    }
}

fn numbers_noted(alloc: Global, numbers: &[u64]) -> Result<Json, CaseError> {
    let mut noted = Row::new(alloc);
    for number in numbers {
        noted.push::<CaseError>(Ok(Json::Int((*number).into())));
    }
    noted.done()
}

fn selector_noted(alloc: Global, token: &Text) -> Result<Json, CaseError> {
    let desc = Previous::descriptor(alloc)?;
    let Ok(table) = table_of::<Previous>(alloc) else {
        return Err(CaseError::Expected("a type that passes its checks"));
    };
    selector_of(alloc, &table, &desc, token)
}

// The tree of the selector that a token is read as.
fn selector_of(
    alloc: Global,
    table: &DescTable,
    desc: &Desc,
    token: &Text,
) -> Result<Json, CaseError>
    requires table { TablePasses table.now }
    requires desc { DescPasses table.now desc.now }
{
    match read_token(alloc, table, desc, token.as_str()) {
        Ok(tree) => tree_noted(alloc, &tree),
        Err(_) => Err(CaseError::Expected("a token that is read")),
    }
}

fn refused(alloc: Global, refusal: &HttpRefusal) -> Result<Json, CaseError> {
    match refusal {
        HttpRefusal::Http(error) => error_noted(alloc, error),
        HttpRefusal::OutOfMemory => Err(CaseError::OutOfMemory),
    }
}

/// The token of a page of one item whose selector is a text of so many letters `e`.
pub fn long_page_told(alloc: Global, case: &Json) -> Result<Json, CaseError> {
    let letters = letters_of(alloc, given_number(case, "length")?)?;
    long_page_from(alloc, &letters)
}

fn long_page_from(alloc: Global, letters: &Text) -> Result<Json, CaseError> {
    let Ok(_) = table_of::<Start>(alloc) else {
        return Err(CaseError::Expected("a type that passes its checks"));
    };
    let items = one_item(alloc)?;
    let page = ResultsPage::new(alloc, items, letters, |alloc: Global, _: &bool, s: &Text| {
        start(alloc, s)
    });
    match page {
        Ok(page) => labelled(alloc, "next_page", text_or_null(alloc, &page.next_page)),
        Err(refusal) => refused(alloc, &refusal),
    }
}

fn one_item(alloc: Global) -> Result<List<bool>, AllocError> {
    let mut items = List::new(alloc);
    items.push(true)?;
    Ok(items)
}

fn letters_of(alloc: Global, count: i128) -> Result<Text, CaseError> {
    let mut letters = Text::new(alloc);
    for _ in 0..count {
        letters.push('e')?;
    }
    Ok(letters)
}

fn start(alloc: Global, text: &Text) -> Result<Start, AllocError> {
    Ok(Single::new(text.copy(alloc)?))
}
