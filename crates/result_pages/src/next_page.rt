//! The page of some items.
ghost use Rattle.std.specs.Prelude.{◌≡◌, ◌≤◌, ◌++◌, [], IfOk, IfErr, IsErr, IsOk, OnOk, length};
ghost use Rattle.std.specs.Fmt.{decimal};
ghost use Rattle.http_status.specs.Errors.{internal_error};
ghost use Rattle.api_types.specs.Additions.{with_all};
ghost use Rattle.page_tokens.specs.Encoded.{IsUnwritten};
ghost use Rattle.result_pages.specs.NextPages.{AreAllTooLarge, HasTable, IsNextPage, IsNoPage};
ghost use Rattle.result_pages.specs.NextPages.{IsNoToken, Selects, too_large_text, type_token};

use crate::results_page::ResultsPage;
use api_types::ApiType;
use http_status::{HttpError, HttpRefusal};
use page_tokens::{TokenError, write_token};
use schema_values::{List, Text};
use std::alloc::{AllocError, Global};
use typed_values::{AddError, DescTable};

impl<T: Drop> ResultsPage<T> {
    /// The page of some items: its token is that of the selector that `get_page_selector` gives for
    /// the last of them, and none exactly where there is no item, which takes no memory.
    ///
    /// Where that token would have above 512 bytes, the refusal is the internal error
    /// `serialized token is too large (K bytes, max is 512)`.
    pub fn new<F, S, P>(
        alloc: Global,
        items: List<T>,
        scan_params: &S,
        get_page_selector: F,
    ) -> Result<ResultsPage<T>, HttpRefusal>
    where
        F: Fn(Global, &T, &S) -> Result<P, AllocError>,
        P: ApiType,
        requires callable { F.IsAlwaysCallable get_page_selector }
        requires table { HasTable P.definitions_of P.desc_of }
        ensures items { IfOk result (λ page. page.items ≡ items) }
        ensures next_page { IfOk result (λ page. IsNextPage
            (Selects F.Fn get_page_selector scan_params.now)
            (λ selector. type_token P.definitions_of P.desc_of (P.tree_of selector))
            items page.next_page) }
        ensures refused { IfErr result (IsNoPage
            (Selects F.Fn get_page_selector scan_params.now)
            (λ selector. type_token P.definitions_of P.desc_of (P.tree_of selector))
            items) }
        ensures too_large { AreAllTooLarge
            (Selects F.Fn get_page_selector scan_params.now)
            (λ selector. type_token P.definitions_of P.desc_of (P.tree_of selector))
            items → IsErr result }
        ensures empty { items ≡ [] → IsOk result }
    {
        let next_page = next_page(alloc, items.as_slice(), scan_params, get_page_selector)?;
        Ok(ResultsPage { next_page, items })
    }
}

// The token of the selector of the last item, if there is one.
fn next_page<T, F, S, P>(
    alloc: Global,
    items: &[T],
    scan_params: &S,
    get_page_selector: F,
) -> Result<Option<Text>, HttpRefusal>
where
    F: Fn(Global, &T, &S) -> Result<P, AllocError>,
    P: ApiType,
    requires callable { F.IsAlwaysCallable get_page_selector }
    requires table { HasTable P.definitions_of P.desc_of }
    ensures next_page { IfOk result (IsNextPage (Selects F.Fn get_page_selector scan_params.now)
        (λ selector. type_token P.definitions_of P.desc_of (P.tree_of selector))
        items.now) }
    ensures refused { IfErr result (IsNoPage (Selects F.Fn get_page_selector scan_params.now)
        (λ selector. type_token P.definitions_of P.desc_of (P.tree_of selector))
        items.now) }
    ensures empty { items.now ≡ [] → IsOk result }
{
    match items.last() {
        Some(item) => {
            let selector = get_page_selector(alloc, item, scan_params)?;
            Ok(Some(selector_token(alloc, &selector)?))
        }
        None => Ok(None),
    }
}

// The token of a selector.
fn selector_token<P: ApiType>(alloc: Global, selector: &P) -> Result<Text, HttpRefusal>
    requires { HasTable P.definitions_of P.desc_of }
    ensures token { IfOk result (λ text. text
        ≡ type_token P.definitions_of P.desc_of (P.tree_of selector.now)) }
    ensures small { IfOk result (λ text. length text ≤ 512) }
    ensures refused { IfErr result (IsNoToken
        (type_token P.definitions_of P.desc_of (P.tree_of selector.now))) }
{
    match written(alloc, selector) {
        Ok(token) => Ok(token),
        Err(TokenError::TooLarge(size)) => Err(HttpRefusal::Http(too_large(alloc, size)?)),
        Err(TokenError::OutOfMemory) => Err(HttpRefusal::OutOfMemory),
        Err(TokenError::NotBase64 | TokenError::Corrupted) => unreachable!(),
    }
}

// The token of a selector, or that it is too large. What it is written from is owned here alone.
fn written<P: ApiType>(alloc: Global, selector: &P) -> Result<Text, TokenError>
    requires { HasTable P.definitions_of P.desc_of }
    ensures token { IfOk result (λ text. text
        ≡ type_token P.definitions_of P.desc_of (P.tree_of selector.now)) }
    ensures small { IfOk result (λ text. length text ≤ 512) }
    ensures refused { IfErr result (IsUnwritten
        (type_token P.definitions_of P.desc_of (P.tree_of selector.now))) }
{
    let tree = selector.to_tree(alloc)?;
    let table = selector_table::<P>(alloc)?;
    let desc = P::descriptor(alloc)?;
    selector.fits();
    write_token(alloc, &table, &desc, &tree)
}

// The table of a selector's definitions, which do not clash.
fn selector_table<P: ApiType>(alloc: Global) -> Result<DescTable, AllocError>
    requires { HasTable P.definitions_of P.desc_of }
    ensures { IfOk result (λ table. table ≡ with_all [] P.definitions_of) }
{
    let mut table = DescTable::new(alloc);
    match P::add_definitions(alloc, &mut table) {
        Ok(()) => Ok(table),
        Err(AddError::OutOfMemory) => Err(AllocError),
        Err(AddError::Clash(_)) => unreachable!(),
    }
}

// The internal error of a token of so many bytes.
fn too_large(alloc: Global, size: u64) -> Result<HttpError, AllocError>
    ensures { IfOk result (λ error. error ≡ internal_error (too_large_text size)) }
{
    let mut message = Text::from_ascii(alloc, "serialized token is too large (")?;
    push_size(alloc, &mut message, size)?;
    message.push_ascii(" bytes, max is 512)")?;
    HttpError::for_internal_error(alloc, message)
}

fn push_size(alloc: Global, text: &mut Text, size: u64) -> Result<(), AllocError>
    ensures { OnOk result (text.new ≡ text.old ++ decimal size) }
{
    text.push_number(alloc, size as i128)
}
