ghost use Rattle.std.specs.Prelude.{◌≡◌, [], ◌∷◌, codes, map, IfOk, OnErr};
ghost use Rattle.descriptors.specs.declared.tree.Tree.TheVariants as trees;
ghost use Rattle.api_types.specs.Adds.{AddsAll};
ghost use Rattle.api_types.specs.Heads.{described, nullable, required};
ghost use Rattle.api_types.specs.Kinds.{KindsFitOne};
ghost use Rattle.api_types.specs.Options.{option_tree};
ghost use Rattle.api_types.specs.Types.{FitsOne};
ghost use Rattle.result_pages.specs.Pages.{page_definition, page_definitions, page_desc};
ghost use Rattle.result_pages.specs.Pages.{page_head, page_kinds, page_name};

use api_types::{ApiType, FieldHead, FieldTypes, StructHead, add_all};
use schema_values::{List, Text};
use std::alloc::{AllocError, Global};
use typed_values::{AddError, Definition, Desc, DescTable, Tree};

/// A page of results. Its type has the name of the items' type, and then `ResultsPage`.
#[derive(Drop)]
pub struct ResultsPage<T> {
    /// The token with which the next page is asked for, none where there is no item on this page.
    pub next_page: Option<Text>,
    /// The items, in order.
    pub items: List<T>,
}

/// The types of the members, in order.
type PageFields<T> = (Option<Text>, (List<T>, ()));

impl<T: ApiType> ApiType for ResultsPage<T> {
    ghost name_of = { page_name T.name_of };

    ghost desc_of = { page_desc T.name_of };

    ghost definitions_of = { page_definitions T.name_of T.definitions_of T.desc_of };

    ghost tree_of = { λ page. trees.Fields (option_tree (λ text. trees.Text text) page.next_page
        ∷ trees.List (map T.tree_of page.items) ∷ []) };

    fn type_name(alloc: Global) -> Result<Text, AllocError> {
        page_name::<T>(alloc)
    }

    fn descriptor(alloc: Global) -> Result<Desc, AllocError> {
        Ok(Desc::Ref(page_name::<T>(alloc)?))
    }

    fn reach() {
        <PageFields<T> as FieldTypes>::reach();
    }

    fn add_definitions(alloc: Global, table: &mut DescTable) -> Result<(), AddError> {
        add_page::<T>(alloc, table)
    }

    fn to_tree(&self, alloc: Global) -> Result<Tree, AllocError> {
        let mut trees = List::new(alloc);
        trees.push(self.next_page.to_tree(alloc)?)?;
        trees.push(self.items.to_tree(alloc)?)?;
        Ok(Tree::Fields(trees))
    }

    fn fits(&self) {
        self.next_page.fits();
        self.items.fits();
    }

    fn from_tree(alloc: Global, tree: &Tree) -> Result<ResultsPage<T>, AllocError> {
        let (next_page, (items, ())) = <PageFields<T> as FieldTypes>::from_trees(
            alloc,
            trees_in::<T>(tree),
        )?;
        Ok(ResultsPage { next_page, items })
    }
}

fn trees_in<T: ApiType>(tree: &Tree) -> &[Tree]
    requires { FitsOne (page_definitions T.name_of T.definitions_of T.desc_of) (page_desc T.name_of)
        tree.now }
    ensures is { tree.now ≡ trees.Fields result.now }
    ensures fit { KindsFitOne (page_kinds T.definitions_of T.desc_of) result.now }
{
    match tree {
        Tree::Fields(trees) => trees.as_slice(),
        _ => unreachable!(),
    }
}

// The name of pages, by the name of their items' type.
fn page_name<T: ApiType>(alloc: Global) -> Result<Text, AllocError>
    ensures { IfOk result (λ name. name ≡ page_name T.name_of) }
{
    let mut name = T::type_name(alloc)?;
    name.push_ascii("ResultsPage")?;
    Ok(name)
}

// What a document says of pages.
fn page_head(alloc: Global) -> Result<StructHead, AllocError>
    ensures { IfOk result (λ head. head ≡ page_head) }
{
    StructHead::new(alloc)
        .described(alloc, "A single page of results")?
        .with(next_page_head(alloc)?)?
        .with(items_head(alloc)?)
}

fn next_page_head(alloc: Global) -> Result<FieldHead, AllocError>
    ensures { IfOk result (λ head. head ≡ described
        (codes "token used to fetch the next page of results (if any)") (nullable (codes "next_page"))) }
{
    FieldHead::nullable(alloc, "next_page")?.described(
        alloc,
        "token used to fetch the next page of results (if any)",
    )
}

fn items_head(alloc: Global) -> Result<FieldHead, AllocError>
    ensures { IfOk result (λ head. head ≡ described
        (codes "list of items on this page of results") (required (codes "items"))) }
{
    FieldHead::required(alloc, "items")?.described(alloc, "list of items on this page of results")
}

fn definition<T: ApiType>(alloc: Global) -> Result<Definition, AllocError>
    ensures { IfOk result (λ made. made ≡ page_definition T.name_of T.definitions_of T.desc_of) }
{
    let name = page_name::<T>(alloc)?;
    let StructHead {
        description,
        deny_unknown,
        fields,
    } = page_head(alloc)?;
    let fields = <PageFields<T> as FieldTypes>::fields(alloc, fields.as_slice())?;
    Ok(Definition {
        name,
        description,
        desc: Desc::Struct {
            fields,
            deny_unknown,
        },
    })
}

// Adds the definitions behind pages to a copy of the table, which takes its place where none
// clashes.
fn add_page<T: ApiType>(alloc: Global, table: &mut DescTable) -> Result<(), AddError>
    ensures adds { AddsAll result table.old
        (page_definitions T.name_of T.definitions_of T.desc_of) table.new }
    ensures err { OnErr result (table.new ≡ table.old) }
{
    let mut all = table.copy(alloc)?;
    <PageFields<T> as FieldTypes>::add_definitions(alloc, &mut all)?;
    add_own::<T>(alloc, &mut all)?;
    *table = all;
    Ok(())
}

// Adds the definition of pages itself.
fn add_own<T: ApiType>(alloc: Global, table: &mut DescTable) -> Result<(), AddError>
    ensures { AddsAll result table.old
        (page_definition T.name_of T.definitions_of T.desc_of ∷ []) table.new }
{
    add_all(alloc, table, &[definition::<T>(alloc)?])?;
    Ok(())
}
