//! A page of results that a query asks for, as a value.
ghost use Rattle.std.specs.Prelude.{◌≡◌, ◌∷◌, [], pos, ◌≤ℤ◌, IfErr, IfOk, OnOk};
ghost use Rattle.std.specs.NonZero.{non_zero_u32_get};
ghost use Rattle.descriptors.specs.declared.tree.Tree.{out-Tree};
ghost use Rattle.descriptors.specs.declared.tree.Tree.TheVariants as trees;
ghost use Rattle.api_types.specs.Additions.{AreRefused, with_all};
ghost use Rattle.api_types.specs.Types.{HoldsAll, ReachesExactly};
ghost use Rattle.handler_shapes.specs.Arguments.{ArgStays, IsItemCount, LimitFits};
ghost use Rattle.handler_shapes.specs.declared.arguments.Arg.TheVariants as arguments;
ghost use Rattle.handler_shapes.specs.declared.slot.Slot.TheVariants as slots;
ghost use Rattle.typed_extractors.specs.PageTrees.{AreParts, IsPage, IsPageAt, IsPaged, IsPagedArg};
ghost use Rattle.typed_extractors.specs.PageTrees.{count_tree, limit_tree, page_tree, page_types};
ghost use Rattle.typed_extractors.specs.PageTrees.{params_tree};

use crate::common::{SharedExtractor, described};
use api_types::ApiType;
use handler_shapes::{Arg, Slot};
use result_pages::{PaginationParams, WhichPage};
use std::alloc::{AllocError, Global};
use std::marker::Model;
use std::num::NonZeroU32;
use typed_values::{AddError, Desc, DescTable, Tree};

/// The page that a query asks for: the first one by the parameters `S` of a scan, or a later one by
/// the selector `P` of a token, and how many items it has at most. Contracts see these parameters.
#[derive(Drop)]
pub struct PagedQuery<S, P> {
    inner: PaginationParams<S, P>,
}

impl<S, P> Model for PagedQuery<S, P> {
    ghost use Rattle.result_pages.specs.declared.pagination_params.PaginationParams as declared;

    ghost Value = { declared.PaginationParams S P };

    ghost view = { λ query. query.inner };
}

impl<S, P> PagedQuery<S, P> {
    /// The parameters.
    pub fn into_inner(self) -> PaginationParams<S, P>
        ensures { result ≡ self }
    {
        let PagedQuery { inner } = self;
        inner
    }

    /// What `f` makes of the parameters. It is called once.
    pub fn map<A, B, F: FnOnce(PaginationParams<S, P>) -> PaginationParams<A, B>>(
        self,
        f: F,
    ) -> PagedQuery<A, B>
        requires { F.pre f self }
        ensures { F.post f self result }
    {
        PagedQuery {
            inner: f(self.into_inner()),
        }
    }

    /// What `f` makes of the parameters, or the error that it answers. It is called once.
    pub fn try_map<A, B, E, F>(self, f: F) -> Result<PagedQuery<A, B>, E>
    where
        F: FnOnce(PaginationParams<S, P>) -> Result<PaginationParams<A, B>, E>,
        requires { F.pre f self }
        ensures { F.post f self result }
    {
        match f(self.into_inner()) {
            Ok(inner) => Ok(PagedQuery { inner }),
            Err(error) => Err(error),
        }
    }
}

impl<S, P> From<PaginationParams<S, P>> for PagedQuery<S, P> {
    ghost use Rattle.std.specs.Prelude.{◌≡◌};

    ghost from_gives = { λ params query. query ≡ params };

    fn from(inner: PaginationParams<S, P>) -> PagedQuery<S, P> {
        PagedQuery { inner }
    }
}

impl<S: ApiType, P: ApiType> SharedExtractor for PagedQuery<S, P> {
    ghost slot_of = { slots.PagedQuery S.desc_of P.desc_of (with_all [] P.definitions_of) };

    ghost definitions_of = { S.definitions_of };

    ghost selectors_of = { P.definitions_of ∷ [] };

    ghost converts = { λ arg query. arg ≡ arguments.Tree (params_tree S.tree_of P.tree_of query) };

    fn slot(alloc: Global, table: &mut DescTable) -> Result<Slot, AddError> {
        let (selector, selector_table) = selector_with::<P>(alloc)?;
        Ok(Slot::PagedQuery {
            scan: described::<S>(alloc, table)?,
            selector,
            selector_table,
        })
    }

    fn from_arg(alloc: Global, arg: &mut Arg) -> Result<PagedQuery<S, P>, AllocError> {
        Ok(PagedQuery {
            inner: params_in(alloc, arg)?,
        })
    }
}

// The descriptor of a selector, and the table of its definitions.
fn selector_with<P: ApiType>(alloc: Global) -> Result<(Desc, DescTable), AddError>
    ensures desc { IfOk result (λ selector. selector.0 ≡ P.desc_of) }
    ensures reaches { OnOk result (ReachesExactly P.definitions_of P.desc_of) }
    ensures made { IfOk result (λ selector. selector.1 ≡ with_all [] P.definitions_of) }
    ensures held { OnOk result (HoldsAll (with_all [] P.definitions_of) P.definitions_of) }
    ensures refused { IfErr result (AreRefused [] P.definitions_of) }
{
    let mut table = DescTable::new(alloc);
    let desc = described::<P>(alloc, &mut table)?;
    Ok((desc, table))
}

// The parameters that the tree of an argument tells, which stays.
fn params_in<S: ApiType, P: ApiType>(
    alloc: Global,
    arg: &mut Arg,
) -> Result<PaginationParams<S, P>, AllocError>
    requires { IsPagedArg (page_types S.definitions_of S.desc_of P.definitions_of P.desc_of)
        arg.old }
    ensures params { IfOk result (λ params. arg.old
        ≡ arguments.Tree (params_tree S.tree_of P.tree_of params)) }
    ensures stays { ArgStays arg.old arg.new }
{
    match arg {
        Arg::Tree(tree) => params_of(alloc, tree),
        _ => unreachable!(),
    }
}

// The parameters that a tree tells.
fn params_of<S: ApiType, P: ApiType>(
    alloc: Global,
    tree: &Tree,
) -> Result<PaginationParams<S, P>, AllocError>
    requires { IsPaged (page_types S.definitions_of S.desc_of P.definitions_of P.desc_of) tree.now }
    ensures { IfOk result (λ params. tree.now ≡ params_tree S.tree_of P.tree_of params) }
{
    match tree {
        Tree::Fields(parts) => params_of_parts(alloc, parts.as_slice()),
        _ => unreachable!(),
    }
}

// The parameters that the trees of a page and of its limit tell.
fn params_of_parts<S: ApiType, P: ApiType>(
    alloc: Global,
    parts: &[Tree],
) -> Result<PaginationParams<S, P>, AllocError>
    requires { AreParts (page_types S.definitions_of S.desc_of P.definitions_of P.desc_of)
        parts.now }
    ensures { IfOk result (λ params. trees.Fields parts.now
        ≡ params_tree S.tree_of P.tree_of params) }
{
    match parts {
        [page, limit] => Ok(PaginationParams {
            page: page_in(alloc, page)?,
            limit: limit_in(limit),
        }),
        _ => unreachable!(),
    }
}

// The page that a tree tells.
fn page_in<S: ApiType, P: ApiType>(
    alloc: Global,
    tree: &Tree,
) -> Result<WhichPage<S, P>, AllocError>
    requires { IsPage (page_types S.definitions_of S.desc_of P.definitions_of P.desc_of) tree.now }
    ensures { IfOk result (λ page. tree.now ≡ page_tree S.tree_of P.tree_of page) }
{
    match tree {
        Tree::Variant(place, value) => page_at(alloc, *place, value.get()),
        _ => unreachable!(),
    }
}

// The page that the tree at a place tells.
fn page_at<S: ApiType, P: ApiType>(
    alloc: Global,
    place: u32,
    value: &Tree,
) -> Result<WhichPage<S, P>, AllocError>
    requires { IsPageAt (page_types S.definitions_of S.desc_of P.definitions_of P.desc_of) place
        value.now }
    ensures { IfOk result (λ page. trees.Variant place value.now
        ≡ page_tree S.tree_of P.tree_of page) }
{
    if place == 0 {
        Ok(WhichPage::First(S::from_tree(alloc, value)?))
    } else {
        Ok(WhichPage::Next(P::from_tree(alloc, value)?))
    }
}

// The limit that a tree tells, if it tells one.
fn limit_in(tree: &Tree) -> Option<NonZeroU32>
    requires { LimitFits (out-Tree tree.now) }
    ensures { tree.now ≡ limit_tree result }
{
    match tree {
        Tree::Some(count) => Some(count_in(count.get())),
        _ => None,
    }
}

// The number of items that a tree tells.
fn count_in(tree: &Tree) -> NonZeroU32
    requires { IsItemCount (out-Tree tree.now) }
    ensures { tree.now ≡ count_tree result }
{
    match tree {
        Tree::Int(number) => count_of(*number),
        _ => unreachable!(),
    }
}

fn count_of(number: i128) -> NonZeroU32
    requires least { pos 1 ≤ℤ number }
    requires greatest { number ≤ℤ pos 4294967295 }
    ensures { pos (non_zero_u32_get result) ≡ number }
{
    match NonZeroU32::new(number as u32) {
        Some(count) => count,
        None => unreachable!(),
    }
}
