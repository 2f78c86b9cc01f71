//! Pages that queries ask for, told by the scan of the first page or the selector of a later one,
//! and how many items are asked for at most.
use crate::told::Told;
use api_types::ApiType;
use case_notation::{CaseError, Record};
use endpoint_notation::arg_told;
use handler_shapes::Arg;
use result_pages::{PaginationParams, WhichPage};
use schema_values::Json;
use std::alloc::{AllocError, Global};
use std::num::NonZeroU32;
use typed_extractors::PagedQuery;
use typed_values::Tree;

impl<S: ApiType, P: ApiType> Told for PagedQuery<S, P> {
    fn told(self, alloc: Global, calls: u64) -> Result<Json, CaseError> {
        let query = PagedQuery::from(self.into_inner());
        let trees = query.try_map(|params: PaginationParams<S, P>| trees_of(alloc, params))?;
        let args = trees.map(|params: PaginationParams<Tree, Tree>| args_of(params));
        params_told(alloc, args.into_inner(), calls)
    }
}

fn trees_of<S: ApiType, P: ApiType>(
    alloc: Global,
    params: PaginationParams<S, P>,
) -> Result<PaginationParams<Tree, Tree>, AllocError> {
    let limit = params.limit;
    let page = match params.page {
        WhichPage::First(scan) => WhichPage::First(scan.to_tree(alloc)?),
        WhichPage::Next(selector) => WhichPage::Next(selector.to_tree(alloc)?),
    };
    Ok(PaginationParams { page, limit })
}

fn args_of(params: PaginationParams<Tree, Tree>) -> PaginationParams<Arg, Arg> {
    let limit = params.limit;
    let page = match params.page {
        WhichPage::First(scan) => WhichPage::First(Arg::Tree(scan)),
        WhichPage::Next(selector) => WhichPage::Next(Arg::Tree(selector)),
    };
    PaginationParams { page, limit }
}

fn params_told(
    alloc: Global,
    params: PaginationParams<Arg, Arg>,
    calls: u64,
) -> Result<Json, CaseError> {
    let limit = params.limit;
    match params.page {
        WhichPage::First(scan) => page_told(alloc, "first", scan, limit, calls),
        WhichPage::Next(selector) => page_told(alloc, "next", selector, limit, calls),
    }
}

fn page_told(
    alloc: Global,
    name: &str,
    page: Arg,
    limit: Option<NonZeroU32>,
    calls: u64,
) -> Result<Json, CaseError> {
    Record::new(alloc)
        .put(name, arg_told(alloc, page, calls))
        .put("limit", limit_told(limit))
        .done()
}

fn limit_told(limit: Option<NonZeroU32>) -> Result<Json, CaseError> {
    match limit {
        Some(limit) => Ok(Json::Int(limit.get().into())),
        None => Ok(Json::Null),
    }
}
